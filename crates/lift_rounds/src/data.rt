/// A case of a step: the address that comes next, and what holds there.
#[derive(Drop)]
pub struct Case<P> {
    pub address: u64,
    pub pred: P,
}

/// What the rounds have made of a vertex: its predicate, where it has one, and its newest cases in order.
#[derive(Drop)]
pub struct Made<P> {
    pub pred: Option<P>,
    pub cases: Vec<Case<P>>,
}

/// What a visit of a vertex, or a round, changed; the stronger come later.
#[derive(Clone, Copy, Debug, PartialEq, Eq)]
pub enum Change {
    /// Nothing.
    Nothing,
    /// Predicates of vertices that aren't kept, or cases.
    Made,
    /// A predicate that is kept.
    Head,
    /// The first predicate of a vertex, an edge or a vertex was found.
    Found,
}
