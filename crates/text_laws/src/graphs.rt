//! The laws of a graph's text.
ghost use Rattle.std.specs.Prelude.{◌≡◌, Ok};
ghost use Rattle.graph_data.specs.declared.graph.Graph.{Graph};
ghost use Rattle.graph_data.specs.WellFormed.{IsWellFormed};
ghost use Rattle.graph_text.specs.Text.{graph_text};
ghost use Rattle.graph_text.specs.Reading.{graph_at};

/// The laws of well-formed graphs and their texts; the call does nothing.
pub fn graph_text_laws()
    // The text of a well-formed graph is read as the graph.
    ensures again { (g : Graph) → IsWellFormed g → graph_at (graph_text g) ≡ Ok g }
    // Well-formed graphs with one text are one.
    ensures one_text { (g h : Graph) → IsWellFormed g → IsWellFormed h → graph_text g ≡ graph_text h → g ≡ h }
{}
