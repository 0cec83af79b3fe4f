// The line that `check` prints of a verdict.
ghost use Rattle.std.specs.Prelude.{◌≡◌, ◌++◌, codes, string_bytes, IfOk};
ghost use Rattle.std.specs.Fmt.{decimal};
ghost use Rattle.graph_lines.specs.Text.{hex};
ghost use Rattle.foxdec_commands.specs.VerdictLine.{verdict_ending, invalid_line};
ghost use Rattle.foxdec_commands.specs.FileResult.{IsOrMemory};
ghost use Rattle.foxdec_commands.specs.View.{ending_of};

use crate::ending::{Output, Refusal};
use graph_verdict::{Broken, Verdict};
use std::alloc::{AllocError, Global};

/// The output of a verdict, or why there is none.
pub fn conclude<'a>(alloc: Global, verdict: Verdict) -> Result<Output, Refusal<'a>>
    ensures { IsOrMemory (λ e. e ≡ verdict_ending verdict) (ending_of result) }
{
    match verdict {
        Verdict::Valid => match Vec::from_slice(alloc, b"valid\n") {
            Ok(bytes) => Ok(Output { valid: true, bytes }),
            Err(_) => Err(Refusal::OutOfMemory),
        },
        Verdict::Invalid(broken) => match invalid_line(alloc, broken) {
            Ok(line) => Ok(Output {
                valid: false,
                bytes: line.into_bytes(),
            }),
            Err(_) => Err(Refusal::OutOfMemory),
        },
    }
}

// The line of a broken rule.
fn invalid_line(alloc: Global, broken: Broken) -> Result<String, AllocError>
    ensures { IfOk result (λ line. string_bytes line ≡ invalid_line broken) }
{
    let mut line = place_text(alloc, broken.function, broken.site)?;
    line.push_str(index_text(alloc, broken.vertex, broken.case)?.as_str())?;
    line.push_str(broken.rule.name())?;
    line.push_str("\n")?;
    Ok(line)
}

// The line as far as the addresses.
fn place_text(alloc: Global, function: u64, site: u64) -> Result<String, AllocError>
    ensures { IfOk result (λ text.
        string_bytes text ≡ codes "invalid " ++ hex function ++ codes " " ++ hex site) }
{
    let mut text = String::from_str(alloc, "invalid ")?;
    text.push_str(hex_digits(alloc, function)?.as_str())?;
    text.push_str(" ")?;
    text.push_str(hex_digits(alloc, site)?.as_str())?;
    Ok(text)
}

// The numbers of the line.
fn index_text(alloc: Global, vertex: u32, case: u32) -> Result<String, AllocError>
    ensures { IfOk result (λ text.
        string_bytes text ≡ codes " " ++ decimal vertex ++ codes " " ++ decimal case ++ codes " ") }
{
    format!(in alloc; " {vertex} {case} ")
}

// The digits of an address.
pub fn hex_digits(alloc: Global, address: u64) -> Result<String, AllocError>
    ensures { IfOk result (λ digits. string_bytes digits ≡ hex address) }
{
    format!(in alloc; "{address:x}")
}
