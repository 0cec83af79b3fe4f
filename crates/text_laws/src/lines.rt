//! The laws of lines.
ghost use Rattle.std.specs.Prelude.{◌≡◌, ◌≤◌, Ok, length};
ghost use Rattle.graph_lines.specs.declared.line.Line.{Line};
ghost use Rattle.graph_lines.specs.Line.{IsLine};
ghost use Rattle.graph_lines.specs.LineLimits.{IsWithinLineLimits};
ghost use Rattle.graph_lines.specs.Text.{line_text};
ghost use Rattle.graph_lines.specs.Reading.{line_at, LineOfKindLaw};

/// The laws of lines and their texts; the call does nothing.
pub fn line_laws()
    // The reading of a line's bytes is the one that their form and the words at the places of terms allow.
    ensures reading { LineOfKindLaw }
    // The text of a line is read as the line.
    ensures again { (l : Line) → IsLine l → line_at (line_text l) ≡ Ok l }
    // Lines with one text are one.
    ensures one_text { (a b : Line) → IsLine a → IsLine b → line_text a ≡ line_text b → a ≡ b }
    // The text of a line within its limits has at most 32,768 bytes.
    ensures short { (l : Line) → IsLine l → IsWithinLineLimits l → length (line_text l) ≤ 32768 }
{}
