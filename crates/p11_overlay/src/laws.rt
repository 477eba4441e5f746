//! What the numbers of the geometry are.
ghost use Rattle.std.specs.Prelude.{◌≡◌, ◌*◌};
ghost use Rattle.p11_overlay.specs.Geometry.{all_sectors, image_bytes, sector_bytes};

use crate::geometry::{
    ALL_SECTORS, CYLINDERS, IMAGE_BYTES, SECTOR_BYTES, SECTORS_PER_TRACK, SURFACES,
};

/// A pack has 203 cylinders of 2 surfaces of 12 sectors of 512 bytes.
pub fn geometry_of_a_pack()
    ensures cylinders { CYLINDERS ≡ 203 }
    ensures surfaces { SURFACES ≡ 2 }
    ensures sectors_per_track { SECTORS_PER_TRACK ≡ 12 }
    ensures all_sectors { ALL_SECTORS ≡ all_sectors }
    ensures sector_bytes { SECTOR_BYTES ≡ sector_bytes }
    ensures image_bytes { IMAGE_BYTES ≡ image_bytes }
{}
