//! The controller's registers and their bus addresses.
ghost use Rattle.std.specs.Prelude.{◌≡◌};
ghost use Rattle.p11_rk11.specs.Calls.Addresses.{register_at};

/// A register of the controller. Each has a word in the I/O page.
#[derive(Clone, Copy, PartialEq, Eq, Debug)]
pub enum Register {
    /// RKDS, 777400.
    DriveStatus,
    /// RKER, 777402.
    Error,
    /// RKCS, 777404.
    ControlStatus,
    /// RKWC, 777406.
    WordCount,
    /// RKBA, 777410.
    BusAddress,
    /// RKDA, 777412.
    DiskAddress,
    /// RKDB, 777416.
    DataBuffer,
}

impl Register {
    /// The register that answers at an even address of 18 bits, if one does. Nothing answers at 777414.
    #[tactic(auto, unfolding(crate::specs::Calls::Addresses::register_at))]
    #[inline(always)]
    pub fn at(address: u32) -> Option<Register>
        ensures { result ≡ register_at address }
    {
        match address {
            0o777400 => Some(Register::DriveStatus),
            0o777402 => Some(Register::Error),
            0o777404 => Some(Register::ControlStatus),
            0o777406 => Some(Register::WordCount),
            0o777410 => Some(Register::BusAddress),
            0o777412 => Some(Register::DiskAddress),
            0o777416 => Some(Register::DataBuffer),
            _ => None,
        }
    }
}
