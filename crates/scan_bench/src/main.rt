//! Scans what stands on standard input, again and again, for bench/scan.sh: for the words within two
//! numbers or for the bits that are set, by root_scan or by plain loops.
#![tactic(auto)]

mod plain;

ghost use Rattle.std.specs.Prelude.{◌≤◌, ◌^◌, length};

use plain::{counted, plain_bits, plain_words};
use root_scan::scan_words;
use std::alloc::Global;
use std::{env, io};

/// The words that are looked for are those of an executable's addresses.
const LO: u64 = 0x40_0000;

const HI: u64 = 0x440_0000;

/// The most bytes that are scanned.
const MOST: usize = 1 << 30;

// How many words are found in the bytes, or bits are set, as the word of the command says.
fn scan(alloc: Global, what: &str, bytes: &[u8]) -> Option<u64>
    requires { length bytes.now ≤ 2 ^ 30 }
{
    match what {
        "words" => Some(scan_words(alloc, bytes, 0, LO, HI).ok()?.len() as u64),
        "plain-words" => Some(plain_words(alloc, bytes, LO, HI).ok()?.len() as u64),
        "bits" => Some(counted(bytes)),
        "plain-bits" => Some(plain_bits(bytes)),
        _ => None,
    }
}

// The sum of what scans from each of so many multiples of 8 on find.
fn scan_times(alloc: Global, what: &str, bytes: &[u8], times: usize) -> Option<u64>
    requires { length bytes.now ≤ 2 ^ 30 }
{
    let mut found = 0u64;
    for time in 0..times {
        let from = time.saturating_mul(8).min(bytes.len());
        found = found.wrapping_add(scan(alloc, what, &bytes[from..])?);
    }
    Some(found)
}

fn main(rt: HostRuntime) -> io::Result<()> {
    let mut bytes = Vec::new(rt.alloc());
    io::Read::read_to_end(&mut rt.stdin(), &mut bytes)?;
    let mut words = env::args(&rt)?.skip(1);
    let (Some(what), Some(times)) = (words.next(), words.next()) else {
        return println!(rt; "usage: scan_bench WHAT TIMES");
    };
    let times = times.as_str().parse::<usize>().unwrap_or(0);
    if bytes.len() > MOST {
        return println!(rt; "too many bytes");
    }
    match scan_times(rt.alloc(), what.as_str(), &bytes, times) {
        Some(found) => println!(rt; "{found}"),
        None => println!(rt; "no such scan"),
    }
}
