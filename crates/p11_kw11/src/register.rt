//! The clock's register and its bus address.
ghost use Rattle.std.specs.Prelude.{◌≡◌};
ghost use Rattle.p11_kw11.specs.Calls.Addresses.{register_at};

/// A register of the line clock, which has one.
#[derive(Clone, Copy, Debug, PartialEq, Eq)]
pub enum Register {
    /// LKS, 777546: bit 7 monitor, bit 6 interrupt enable.
    Status,
}

impl Register {
    /// The register at a bus address of 18 bits, if it is the clock's.
    #[tactic(auto, unfolding(crate::specs::Calls::Addresses::register_at))]
    #[inline(always)]
    pub fn at(address: u32) -> Option<Register>
        ensures { result ≡ register_at address }
    {
        match address {
            0o777546 => Some(Register::Status),
            _ => None,
        }
    }
}
