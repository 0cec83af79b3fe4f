/// The accumulator, by its number in an encoding (Intel SDM volume 2, table 2-2).
pub const RAX: u8 = 0;

/// The register of counts, whose low byte is CL.
pub const RCX: u8 = 1;

/// The upper half of a wide product or dividend.
pub const RDX: u8 = 2;

/// The stack pointer.
pub const RSP: u8 = 4;

/// The frame pointer.
pub const RBP: u8 = 5;
