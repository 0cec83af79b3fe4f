/// The most pairs of regions that are taken as separate at a site.
pub const MOST_PAIRS: usize = 64;

/// The most regions that a callee is assumed to leave as they were.
pub const MOST_KEEPS: usize = 64;

/// The most vertices of a site.
pub const MOST_VERTICES: usize = 8;

/// The most edges of a vertex.
pub const MOST_EDGES: usize = 1024;

/// The most bytes of a frame, to each side of the entry's stack pointer.
pub const MOST_FRAME: u64 = 1_048_576;
