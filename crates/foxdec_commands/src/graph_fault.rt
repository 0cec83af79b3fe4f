// Why the text of a graph is refused.
ghost use Rattle.std.specs.Prelude.{◌≡◌};
ghost use Rattle.foxdec_commands.specs.GraphFault.{fault_line, fault_name, fault_number};

use graph_text::TextRefusal;

/// Why a text is refused as a graph's.
#[derive(Clone, Copy, Debug, PartialEq, Eq)]
pub enum GraphFault {
    /// It has more bytes than are read.
    TooLong,
    /// The reader's refusal, of the first faulty line.
    Line(TextRefusal),
}

impl GraphFault {
    /// The number of the line, from 1; 0 where the text is too long.
    pub fn line(self) -> u64
        ensures { result ≡ fault_line self }
    {
        match self {
            GraphFault::TooLong => 0,
            GraphFault::Line(refusal) => refusal.line,
        }
    }

    pub fn name(self) -> &'static str
        ensures { result.now ≡ fault_name self }
    {
        match self {
            GraphFault::TooLong => "TooLong",
            GraphFault::Line(refusal) => refusal.cause.name(),
        }
    }

    pub fn number(self) -> u8
        ensures { result ≡ fault_number self }
    {
        match self {
            GraphFault::TooLong => 8,
            GraphFault::Line(refusal) => refusal.cause.number(),
        }
    }
}
