ghost use Rattle.std.specs.Prelude.{◌≡◌, ◌≤◌, length, IsTrue};
ghost use Rattle.x86_spelling.specs.Fields.{disp_len};
ghost use Rattle.x86_spelling.specs.Sizes.{is_length};
ghost use Rattle.x86_decode.specs.Reading.{Gives, rex_at, opcode_at, digit_at, little_at, sib_at, modrm_at, modrm_for, value};

use x86_spelling::{ModRm, Sib};

#[tactic(auto, unfolding(crate::specs::Reading::rex_at))]
pub fn rex_of(bytes: &[u8]) -> (Option<u8>, &[u8])
    ensures rex { result.0 ≡ (rex_at bytes.now).0 }
    ensures rest { result.1.now ≡ (rex_at bytes.now).1 }
{
    match bytes {
        [b, rest @ ..] if *b >= 0x40 && *b < 0x50 => (Some(*b - 0x40), rest),
        _ => (None, bytes),
    }
}

#[tactic(auto, unfolding(crate::specs::Reading::opcode_at, crate::specs::Reading::escaped_at))]
pub fn opcode_of(bytes: &[u8]) -> Option<(bool, u8, &[u8])>
    ensures { Gives (λ x. (x.0, x.1, x.2.now)) result (opcode_at bytes.now) }
{
    match bytes {
        [0x0f, opcode, rest @ ..] => Some((true, *opcode, rest)),
        [0x0f] => None,
        [opcode, rest @ ..] => Some((false, *opcode, rest)),
        [] => None,
    }
}

#[tactic(auto, unfolding(crate::specs::Reading::digit_at))]
pub fn digit_of(bytes: &[u8]) -> u8
    ensures { result ≡ digit_at bytes.now }
{
    match bytes {
        [b, ..] => *b / 8 % 8,
        [] => 0,
    }
}

// The number that the bytes are, the lowest first.
fn value_of(bytes: &[u8]) -> u64
    requires { length bytes.now ≤ 8 }
    ensures { result ≡ value bytes.now }
{
    match bytes {
        [b, rest @ ..] => *b as u64 + 256 * value_of(rest),
        [] => 0,
    }
}

#[tactic(auto, unfolding(crate::specs::Reading::little_at))]
pub fn little_of(len: u8, bytes: &[u8]) -> Option<(u64, &[u8])>
    requires { IsTrue (is_length len) }
    ensures { Gives (λ x. (x.0, x.1.now)) result (little_at len bytes.now) }
{
    let len = len as usize;
    if bytes.len() < len {
        return None;
    }
    let (number, rest) = bytes.split_at(len);
    Some((value_of(number), rest))
}

#[tactic(auto, unfolding(crate::specs::Reading::sib_at))]
fn sib_of(stands: bool, bytes: &[u8]) -> Option<(Option<Sib>, &[u8])>
    ensures { Gives (λ x. (x.0, x.1.now)) result (sib_at stands bytes.now) }
{
    if !stands {
        return Some((None, bytes));
    }
    match bytes {
        [b, rest @ ..] => {
            let sib = Sib {
                scale: *b / 64,
                index: *b / 8 % 8,
                base: *b % 8,
            };
            Some((Some(sib), rest))
        }
        [] => None,
    }
}

pub fn disp_length(mode: u8, rm: u8, sib: Option<Sib>) -> u8
    ensures value { result ≡ disp_len mode rm sib }
    ensures length { IsTrue (is_length result) }
{
    let base = match sib {
        Some(s) => s.base,
        None => rm,
    };
    if mode == 1 {
        1
    } else if mode == 2 || (mode == 0 && base == 5) {
        4
    } else {
        0
    }
}

#[tactic(auto, unfolding(crate::specs::Reading::modrm_at))]
fn modrm_of(bytes: &[u8]) -> Option<(ModRm, &[u8])>
    ensures { Gives (λ x. (x.0, x.1.now)) result (modrm_at bytes.now) }
{
    match bytes {
        [b, rest @ ..] => {
            let mode = *b / 64;
            let rm = *b % 8;
            let (sib, rest) = sib_of(mode != 3 && rm == 4, rest)?;
            let (disp, rest) = little_of(disp_length(mode, rm, sib), rest)?;
            let reg = *b / 8 % 8;
            Some((
                ModRm {
                    mode,
                    reg,
                    rm,
                    sib,
                    disp,
                },
                rest,
            ))
        }
        [] => None,
    }
}

#[tactic(auto, unfolding(crate::specs::Reading::modrm_for))]
pub fn modrm_if(stands: bool, bytes: &[u8]) -> Option<(Option<ModRm>, &[u8])>
    ensures { Gives (λ x. (x.0, x.1.now)) result (modrm_for stands bytes.now) }
{
    if !stands {
        return Some((None, bytes));
    }
    let (modrm, rest) = modrm_of(bytes)?;
    Some((Some(modrm), rest))
}
