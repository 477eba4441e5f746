//! The geometry of an RK05 pack.

/// How many cylinders an RK05 pack has.
pub const CYLINDERS: u16 = 203;
/// Surfaces, which are the tracks of a cylinder.
pub const SURFACES: u16 = 2;
/// How many sectors a track has: a surface of a cylinder.
pub const SECTORS_PER_TRACK: u16 = 12;
/// How many bytes a sector has: those of 256 words.
pub const SECTOR_BYTES: usize = 512;
/// How many sectors a pack has, 4,872.
pub const ALL_SECTORS: u16 = CYLINDERS * SURFACES * SECTORS_PER_TRACK;
/// How many bytes a pack holds, 2,494,464.
pub const IMAGE_BYTES: usize = ALL_SECTORS as usize * SECTOR_BYTES;
