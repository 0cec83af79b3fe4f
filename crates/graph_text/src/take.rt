//! One line of a text after another.
ghost use Rattle.std.specs.Prelude.{◌≡◌, true, [], Some, IfOk};
ghost use Rattle.term_text.specs.Reading.{Fails, Gives};
ghost use Rattle.graph_data.specs.WellFormed.{IsWellFormed};
ghost use Rattle.graph_builder.specs.Lines.{graph_lines};
ghost use Rattle.graph_builder.specs.Partial.{new_builder};
ghost use Rattle.graph_builder.specs.Extend.{extended};
ghost use Rattle.graph_builder.specs.Building.{lines_of, IsBuilt};
ghost use Rattle.graph_text.specs.Text.{head};
ghost use Rattle.graph_text.specs.Reading.{head_taken, next_taken, line_taken, end_taken, headless as headless_at};
ghost use Rattle.graph_text.specs.ConsumedText.{IsNext, Consumes};

use graph_builder::Builder;
use graph_data::Graph;
use graph_lines::{Line, kind_of_bytes, read_line_of_kind};
use std::alloc::Global;
use term_text::TextCause;

/// The most bytes of a line, without its line feed.
const MOST_BYTES: usize = 32_768;

/// Why a text without a line feed is refused.
pub(crate) fn headless(text: &[u8]) -> TextCause
    ensures { Fails result (headless_at text.now) }
{
    if text.len() > MOST_BYTES {
        TextCause::OverLimit
    } else {
        TextCause::Unended
    }
}

/// The first line.
#[tactic(auto, unfolding(crate::specs::Reading::head_taken))]
pub(crate) fn take_head(bytes: &[u8]) -> Result<(), TextCause>
    ensures exact { Gives (λ _. new_builder) result (head_taken bytes.now) }
    ensures found { IfOk result (λ _. bytes.now ≡ head) }
{
    if bytes.len() > MOST_BYTES {
        return Err(TextCause::OverLimit);
    }
    if bytes != b"foxdec graph 1".as_slice() {
        return Err(TextCause::BadHead);
    }
    Ok(())
}

/// The line that the bytes are, which can come next.
#[tactic(auto, using(crate::proofs::TakeLemmas::kind_follows), unfolding(crate::specs::Reading::next_taken))]
fn next_line(
    alloc: Global,
    builder: &Builder,
    bytes: &[u8],
    buffer: &mut Vec<u8>,
) -> Result<Line, TextCause>
    ensures exact { Gives (λ l. extended builder.now l) result (next_taken builder.now bytes.now) }
    ensures found { IfOk result (IsNext builder.now bytes.now) }
{
    let Some(kind) = kind_of_bytes(bytes) else {
        return Err(TextCause::BadLine);
    };
    if !builder.can_follow(kind) {
        return Err(TextCause::BadLine);
    }
    let line = read_line_of_kind(alloc, kind, bytes, buffer)?;
    builder.judge(&line)?;
    Ok(line)
}

/// What is built with the line that the bytes are, which are at most 32,768.
#[tactic(auto, using(crate::proofs::TakeLemmas::consumes), unfolding(crate::specs::Reading::line_taken))]
pub(crate) fn take_line(
    alloc: Global,
    builder: Builder,
    bytes: &[u8],
    buffer: &mut Vec<u8>,
) -> Result<Builder, TextCause>
    requires { IsBuilt builder }
    ensures exact { Gives (λ b. b) result (line_taken builder bytes.now) }
    ensures found { IfOk result (Consumes builder bytes.now) }
{
    if bytes.len() > MOST_BYTES {
        return Err(TextCause::OverLimit);
    }
    let line = next_line(alloc, &builder, bytes, buffer)?;
    let next = builder.push(alloc, line)?;
    Ok(next)
}

/// The graph that was built, where nothing is after the last line feed.
#[tactic(auto, unfolding(crate::specs::Reading::end_taken))]
pub(crate) fn take_end(builder: Builder, bytes: &[u8]) -> Result<Graph, TextCause>
    requires { IsBuilt builder }
    ensures exact { Gives (λ g. g) result (end_taken builder bytes.now) }
    ensures found { IfOk result (λ g. (IsWellFormed g × (graph_lines g ≡ lines_of builder)) × (bytes.now ≡ [])) }
{
    if bytes.len() > MOST_BYTES {
        return Err(TextCause::OverLimit);
    }
    if !bytes.is_empty() {
        return Err(TextCause::Unended);
    }
    builder.finish()
}
