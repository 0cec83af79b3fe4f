ghost use Rattle.std.specs.Prelude.{◌≡◌, ◌≢◌, ◌<◌};
ghost use Rattle.bits_core.specs.Condition.{condition_of};

use crate::flags::Flags;

/// Whether the condition `cc` holds, the low four bits of the opcode of Jcc, SETcc or CMOVcc: 0 o, 1 no, 2 b, 3 ae,
/// 4 e, 5 ne, 6 be, 7 a, 8 s, 9 ns, 12 l, 13 ge, 14 le, 15 g (Intel SDM volume 2, appendix B.1.4.7). 10 and 11, p and
/// np, read a flag that `Flags` does not have.
pub fn cond(cc: u8, f: Flags) -> bool
    requires code { cc < 16 }
    requires not_p { cc ≢ 10 }
    requires not_np { cc ≢ 11 }
    ensures { result ≡ condition_of cc f }
{
    match cc {
        0 => f.over,
        1 => !f.over,
        2 => f.carry,
        3 => !f.carry,
        4 => f.zero,
        5 => !f.zero,
        6 => f.carry || f.zero,
        7 => !f.carry && !f.zero,
        8 => f.sign,
        9 => !f.sign,
        12 => f.sign != f.over,
        13 => f.sign == f.over,
        14 => f.zero || f.sign != f.over,
        _ => !f.zero && f.sign == f.over,
    }
}
