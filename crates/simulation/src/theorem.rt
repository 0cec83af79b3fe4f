ghost use Rattle.simulation.specs.World.{World, Rules};
ghost use Rattle.simulation.specs.Theorem.{Simulates, HoldsThroughout, HoldsAtStart};
ghost use Rattle.simulation.specs.Theorem.{OneMove, Beginnings, OriginStays};

/// An image, with the machine, the predicates and the graphs that are meant for it.
pub trait Subject {
    /// The world of the image: what the theorem takes as given.
    ghost world: { Self → World };
    /// What the rules of its graphs say by.
    ghost rules: { (image : Self) → Rules (world image) };
}

/// The theorem over runs, for every image. It computes nothing: a caller cites its clauses.
pub fn simulation<I: Subject>()
    // A valid graph is safe for every run that keeps what the graph prints.
    ensures simulates { (image : I) → Simulates (I.world image) (I.rules image) }

    // The invariant behind it: at every start, after every move, and so at the end of every run.
    ensures at_start { (image : I) → HoldsAtStart (I.world image) (I.rules image) }
    ensures one_move { (image : I) → OneMove (I.world image) (I.rules image) }
    ensures throughout { (image : I) → HoldsThroughout (I.world image) (I.rules image) }

    // Runs: each beginning keeps what the whole keeps; the outermost activation began at the start.
    ensures beginnings { (image : I) → Beginnings (I.world image) }
    ensures origin { (image : I) → OriginStays (I.world image) }
{}
