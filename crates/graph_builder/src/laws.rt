//! The law of building.
ghost use Rattle.graph_builder.specs.Building.{LinesBuild, BuiltHasLines, LinesAreShort};

/// The law of graphs and the lines that build them; the call does nothing.
pub fn builder_laws()
    // The lines of a well-formed graph build it.
    ensures builds { LinesBuild }
    // A graph that lines build is well formed and has just these lines.
    ensures has_lines { BuiltHasLines }
    // Each line of a well-formed graph is within its own limits.
    ensures short { LinesAreShort }
{}
