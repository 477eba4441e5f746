//! A drive of the disk controller, with a pack mounted: its sectors, its protect mark, and the list
//! of the sectors that were written since the mount.
#![tactic(auto)]

mod drive;
mod geometry;
mod laws;

pub use drive::Drive;
pub use geometry::{
    ALL_SECTORS, CYLINDERS, IMAGE_BYTES, SECTOR_BYTES, SECTORS_PER_TRACK, SURFACES,
};
pub use laws::geometry_of_a_pack;
