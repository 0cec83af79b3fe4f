ghost use Rattle.std.specs.Prelude.{◌≡◌, ◌≤◌, length, count_by};
ghost use Rattle.x86_spelling.specs.Prefixes.{is_plain, is_prefix, count, is_small, limits, allows_segment, allows};
ghost use Rattle.x86_decode.specs.Reading.{prefix_len};

use x86_spelling::PrefixRule;

pub const FS_OVERRIDE: u8 = 0x64;

const OPERAND_SIZE: u8 = 0x66;

const ADDRESS_SIZE: u8 = 0x67;

const REPNE: u8 = 0xf2;

const REP: u8 = 0xf3;

// How often each prefix may stand before an opcode.
#[derive(Clone, Copy)]
struct Limits {
    segment: usize,
    size: usize,
    address: usize,
    repne: usize,
    rep: usize,
}

const NONE: Limits = Limits {
    segment: 0,
    size: 0,
    address: 0,
    repne: 0,
    rep: 0,
};

fn is_plain_byte(b: u8) -> bool
    ensures { result ≡ is_plain b }
{
    matches!(b, 0x26 | 0x2e | 0x36 | 0x3e)
}

fn is_prefix_byte(b: u8) -> bool
    ensures { result ≡ is_prefix b }
{
    is_plain_byte(b) || matches!(b, FS_OVERRIDE | OPERAND_SIZE | ADDRESS_SIZE | REPNE | REP)
}

#[tactic(auto, unfolding(crate::specs::Reading::prefix_len))]
pub fn count_prefixes(bytes: &[u8]) -> usize
    ensures value { result ≡ prefix_len bytes.now }
    ensures within { result ≤ length bytes.now }
{
    bytes.iter().take_while(|b| is_prefix_byte(**b)).count()
}

pub fn count_byte(b: u8, prefixes: &[u8]) -> usize
    ensures { result ≡ count b prefixes.now }
{
    prefixes.iter().filter(|x| **x == b).count()
}

fn count_plain(prefixes: &[u8]) -> usize
    ensures { result ≡ count_by is_plain prefixes.now }
{
    prefixes.iter().filter(|x| is_plain_byte(**x)).count()
}

pub fn has_size_prefix(prefixes: &[u8]) -> bool
    ensures { result ≡ is_small prefixes.now }
{
    count_byte(OPERAND_SIZE, prefixes) > 0
}

fn limits_of(rule: PrefixRule) -> Limits
    ensures segment { result.segment ≡ (limits rule).segment }
    ensures size { result.size ≡ (limits rule).size }
    ensures address { result.address ≡ (limits rule).address }
    ensures repne { result.repne ≡ (limits rule).repne }
    ensures rep { result.rep ≡ (limits rule).rep }
{
    match rule {
        PrefixRule::Segment => Limits { segment: 1, ..NONE },
        PrefixRule::SizeSegment => Limits {
            segment: 1,
            size: 1,
            ..NONE
        },
        PrefixRule::Size => Limits { size: 1, ..NONE },
        PrefixRule::Sizes => Limits { size: 15, ..NONE },
        PrefixRule::Branch => Limits {
            segment: 1,
            repne: 1,
            ..NONE
        },
        PrefixRule::Call => Limits {
            address: 1,
            repne: 1,
            ..NONE
        },
        PrefixRule::Return => Limits {
            repne: 1,
            rep: 1,
            ..NONE
        },
    }
}

fn is_segment_allowed(rule: PrefixRule, memory: bool, prefixes: &[u8]) -> bool
    ensures { result ≡ allows_segment rule memory prefixes.now }
{
    let segments = count_byte(FS_OVERRIDE, prefixes);
    segments == 0 || (memory && segments <= limits_of(rule).segment && count_plain(prefixes) == 0)
}

pub fn are_allowed(rule: PrefixRule, memory: bool, prefixes: &[u8]) -> bool
    ensures { result ≡ allows rule memory prefixes.now }
{
    let most = limits_of(rule);
    count_byte(OPERAND_SIZE, prefixes) <= most.size
        && count_byte(ADDRESS_SIZE, prefixes) <= most.address
        && count_byte(REPNE, prefixes) <= most.repne
        && count_byte(REP, prefixes) <= most.rep
        && is_segment_allowed(rule, memory, prefixes)
}
