//! Who may read and write the file in which a pack is kept.
ghost use Rattle.std.specs.Prelude.{◌≡◌};
ghost use Rattle.p11_host.specs.Hosts.{rescue_mode};

/// The mode of a file that its owner alone reads and writes.
const OWN_MODE: u32 = 0o600;

/// The bits of a mode that say who may read, write and run a file.
const PERMISSION_BITS: u32 = 0o777;

/// The permission bits of the file in which a pack is kept, by the mode of its image, if that is a file: the image's, and its owner
/// may read and write it in any case.
pub fn rescue_mode(image: Option<u32>) -> u32
    ensures { result ≡ rescue_mode image }
{
    match image {
        Some(mode) => mode & PERMISSION_BITS | OWN_MODE,
        None => OWN_MODE,
    }
}
