//! The error register, RKER.
ghost use Rattle.std.specs.Prelude.{◌≡◌};
ghost use Rattle.p11_rk11.specs.Errors.{error_bit};

/// The bit of RKER that says that a write check found a difference. It alone doesn't end its function.
pub(crate) const WRITE_CHECK: u16 = 1;

/// The hard errors: each ends its function.
#[derive(Clone, Copy)]
pub enum Failure {
    /// RKDA's sector is above 11.
    NoSector,
    /// RKDA's cylinder is above 202.
    NoCylinder,
    /// The drive has no pack.
    NoDisk,
    /// The transfer's addresses aren't all memory.
    NoMemory,
    /// Format is set.
    Programming,
    /// A write to a pack that is write-protected.
    WriteLockout,
    /// Words are left behind the last sector of the pack.
    Overrun,
    /// The drive seeks.
    DriveError,
}

impl Failure {
    /// The error's bit of RKER, as its weight.
    #[tactic(auto, unfolding(crate::specs::Errors::error_bit))]
    pub(crate) fn bit(self) -> u16
        ensures { result ≡ error_bit self }
    {
        match self {
            Failure::NoSector => 0o40,
            Failure::NoCylinder => 0o100,
            Failure::NoDisk => 0o200,
            Failure::NoMemory => 0o2000,
            Failure::Programming => 0o4000,
            Failure::WriteLockout => 0o20000,
            Failure::Overrun => 0o40000,
            Failure::DriveError => 0o100000,
        }
    }
}
