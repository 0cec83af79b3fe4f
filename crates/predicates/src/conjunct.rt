/// A part of a predicate: a register by its number, the flag fact, a bound by its place, or a node of the
/// forest by its place in preorder, both counted from 0.
#[derive(Clone, Copy, Debug, PartialEq, Eq)]
pub enum Conjunct {
    Register(u8),
    Flags,
    Bound(u32),
    Cell(u32),
}
