//! The console line's registers and their bus addresses.
ghost use Rattle.std.specs.Prelude.{◌≡◌};
ghost use Rattle.p11_dl11.specs.Calls.Addresses.{register_at};

/// A register of the console line: status and buffer of each section.
#[derive(Clone, Copy)]
pub enum Register {
    /// RCSR, 777560: bit 7 done, bit 6 interrupt enable.
    ReceiverStatus,
    /// RBUF, 777562: the character in bits 7:0.
    ReceiverBuffer,
    /// XCSR, 777564: bit 7 ready, bit 6 interrupt enable.
    TransmitterStatus,
    /// XBUF, 777566: the character in bits 7:0, which can't be read.
    TransmitterBuffer,
}

impl Register {
    /// The register at a bus address of 18 bits, if it is one of the console line's.
    #[tactic(auto, unfolding(crate::specs::Calls::Addresses::register_at))]
    #[inline(always)]
    pub fn at(address: u32) -> Option<Register>
        ensures { result ≡ register_at address }
    {
        match address {
            0o777560 => Some(Register::ReceiverStatus),
            0o777562 => Some(Register::ReceiverBuffer),
            0o777564 => Some(Register::TransmitterStatus),
            0o777566 => Some(Register::TransmitterBuffer),
            _ => None,
        }
    }
}

/// A section of the console line. Each interrupts at level 4: the receiver through vector 60, the transmitter through
/// vector 64.
#[derive(Clone, Copy)]
pub enum Section {
    Receiver,
    Transmitter,
}
