//! The registers on the I/O page and their bus addresses.
ghost use Rattle.std.specs.Prelude.{◌≡◌};
ghost use Rattle.p11_unibus.specs.Calls.Tables.{register_by_device};
ghost use Rattle.p11_unibus.specs.Registers.{register_at};

use p11_dl11::Register as LineRegister;
use p11_kw11::Register as ClockRegister;
use p11_rk11::Register as DiskRegister;

/// The bus address of the switch register.
const SWITCHES: u32 = 0o777570;

/// A register on the I/O page.
#[derive(Clone, Copy)]
pub enum Register {
    /// One of the line clock's.
    Clock(ClockRegister),
    /// One of the console line's.
    Line(LineRegister),
    /// One of the disk controller's.
    Disk(DiskRegister),
    /// The operator's switches, 777570, which a program can't write.
    Switches,
}

impl Register {
    /// The register that stands at a bus address of 18 bits, if one does.
    #[tactic(auto, using(crate::proofs::Map::devices_make_the_map))]
    #[inline(always)]
    pub fn at(address: u32) -> Option<Register>
        ensures { result ≡ register_at address }
    {
        Register::by_device(address)
    }

    /// The register at an address, as the devices know their addresses.
    #[tactic(auto, unfolding(crate::specs::Calls::Tables::register_by_device))]
    #[inline(always)]
    fn by_device(address: u32) -> Option<Register>
        ensures { result ≡ register_by_device address }
    {
        if let Some(register) = DiskRegister::at(address) {
            return Some(Register::Disk(register));
        }
        if let Some(register) = ClockRegister::at(address) {
            return Some(Register::Clock(register));
        }
        if let Some(register) = LineRegister::at(address) {
            return Some(Register::Line(register));
        }
        match address {
            SWITCHES => Some(Register::Switches),
            _ => None,
        }
    }
}
