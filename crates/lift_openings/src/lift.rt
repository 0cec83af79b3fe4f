use lift_rounds::{Graph, Made};

/// What was found of a function, and what is known at its vertices.
#[derive(Drop)]
pub struct Lift<P> {
    pub graph: Graph,
    pub made: Vec<Made<P>>,
}
