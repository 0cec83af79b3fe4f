// What the words after the program's name ask for.
ghost use Rattle.std.specs.Prelude.{◌≡◌, ◌≤◌, map, string_bytes, IfOk};
ghost use Rattle.std.specs.Option.{option_map};
ghost use Rattle.foxdec_commands.specs.Words.{is_name, begins_with, number_of, address_of, count_of, parsed_in_range, names_of, check_of, report_of, show_from, show_of, is_option, lifted_file, address_behind, addresses_of, lift_of, request_of};
ghost use Rattle.foxdec_commands.specs.View.{asked_of};

use std::alloc::{AllocError, Global};

/// The most instructions that are shown.
const MOST_SHOWN: u64 = 65_536;

/// A command, with the names that its words give.
#[derive(Clone, Copy)]
pub enum Request<'a> {
    Check {
        file: &'a str,
        graph: &'a str,
    },
    Show {
        file: &'a str,
        address: u64,
        count: u64,
    },
    Report {
        file: &'a str,
        graph: &'a str,
    },
    Lift {
        file: &'a str,
        /// All words after `lift`.
        words: &'a [String],
    },
}

/// The word before an entry.
pub const ROOT: &str = "--root";

/// The word before an address that lies outside.
pub const EXTERN: &str = "--extern";

/// What the words ask for, if they are a command.
pub fn read_words(words: &[String]) -> Option<Request<'_>>
    ensures { option_map asked_of result ≡ request_of (map string_bytes words.now) }
{
    let [command, rest @ ..] = words else {
        return None;
    };
    match command.as_str() {
        "check" => check_words(rest),
        "report" => report_words(rest),
        "show" => show_words(rest),
        "lift" => lift_words(rest),
        _ => None,
    }
}

fn check_words(words: &[String]) -> Option<Request<'_>>
    ensures { option_map asked_of result ≡ check_of (map string_bytes words.now) }
{
    let (file, graph) = two_names(words)?;
    Some(Request::Check { file, graph })
}

fn report_words(words: &[String]) -> Option<Request<'_>>
    ensures { option_map asked_of result ≡ report_of (map string_bytes words.now) }
{
    let (file, graph) = two_names(words)?;
    Some(Request::Report { file, graph })
}

fn two_names(words: &[String]) -> Option<(&str, &str)>
    ensures { option_map (λ names. (names.0.now, names.1.now)) result ≡ names_of (map string_bytes words.now) }
{
    let [file, graph] = words else {
        return None;
    };
    if !is_name(file.as_str()) || !is_name(graph.as_str()) {
        return None;
    }
    Some((file.as_str(), graph.as_str()))
}

fn show_words(words: &[String]) -> Option<Request<'_>>
    ensures { option_map asked_of result ≡ show_of (map string_bytes words.now) }
{
    let [file, address, count] = words else {
        return None;
    };
    if !is_name(file.as_str()) {
        return None;
    }
    show_request(
        file.as_str(),
        address_of(address.as_str()),
        count_of(count.as_str()),
    )
}

fn show_request(file: &str, address: Option<u64>, count: Option<u64>) -> Option<Request<'_>>
    ensures { option_map asked_of result ≡ show_from file.now address count }
{
    match (address, count) {
        (Some(address), Some(count)) => Some(Request::Show {
            file,
            address,
            count,
        }),
        _ => None,
    }
}

fn lift_words(words: &[String]) -> Option<Request<'_>>
    ensures { option_map asked_of result ≡ lift_of (map string_bytes words.now) }
{
    let file = lifted_file(words)?;
    Some(Request::Lift { file, words })
}

// The file after options, each with an address.
fn lifted_file(words: &[String]) -> Option<&str>
    ensures { option_map (λ file. file.now) result ≡ lifted_file (map string_bytes words.now) }
{
    let mut rest = words;
    while let [word, address, others @ ..] = rest {
        if !is_option(word.as_str(), address.as_str()) {
            return None;
        }
        rest = others;
    }
    match rest {
        [file] if is_name(file.as_str()) => Some(file.as_str()),
        _ => None,
    }
}

fn is_option(word: &str, address: &str) -> bool
    ensures { result ≡ is_option word.now address.now }
{
    (word == ROOT || word == EXTERN) && address_of(address).is_some()
}

fn address_behind(option: &str, word: &str, address: &str) -> Option<u64>
    ensures { result ≡ address_behind option.now word.now address.now }
{
    if word == option {
        address_of(address)
    } else {
        None
    }
}

/// The addresses of an option among the words of `lift`, in their order.
pub fn addresses_of(alloc: Global, option: &str, words: &[String]) -> Result<Vec<u64>, AllocError>
    ensures { IfOk result (λ found. found.items ≡ addresses_of option.now (map string_bytes words.now)) }
{
    let mut found = Vec::new(alloc);
    let mut rest = words;
    while let [word, address, others @ ..] = rest {
        if let Some(address) = address_behind(option, word.as_str(), address.as_str()) {
            found.push(address)?;
        }
        rest = others;
    }
    Ok(found)
}

fn is_name(word: &str) -> bool
    ensures { result ≡ is_name word.now }
{
    match word.as_bytes() {
        [] => false,
        [first, ..] => *first != b'-',
    }
}

// 1 to 16 hexadecimal digits of either case.
fn address_of(word: &str) -> Option<u64>
    ensures { result ≡ address_of word.now }
{
    if word.len() > 16 {
        return None;
    }
    number_of(16, word)
}

// Decimal digits without a leading zero, from 1 to the most.
fn count_of(word: &str) -> Option<u64>
    ensures { result ≡ count_of word.now }
{
    if begins_with(b'0', word) {
        return None;
    }
    match number_of(10, word) {
        Some(n) => parsed_in_range(n),
        None => None,
    }
}

fn parsed_in_range(n: u64) -> Option<u64>
    ensures { result ≡ parsed_in_range n }
{
    if n <= MOST_SHOWN { Some(n) } else { None }
}

fn begins_with(character: u8, word: &str) -> bool
    ensures { result ≡ begins_with character word.now }
{
    match word.as_bytes() {
        [] => false,
        [first, ..] => *first == character,
    }
}

// The number that digits in a base write, without a sign.
fn number_of(base: u32, word: &str) -> Option<u64>
    requires least { 2 ≤ base }
    requires most { base ≤ 36 }
    ensures { result ≡ number_of base word.now }
{
    if begins_with(b'+', word) {
        return None;
    }
    match u64::from_str_radix(word, base) {
        Ok(n) => Some(n),
        Err(_) => None,
    }
}
