//! What may end an instruction before it is complete.
use p11_psw::Vector;

/// Why an instruction or a service ended before it was complete.
#[derive(Clone, Copy)]
pub(crate) enum Trap {
    /// The service of this vector follows.
    Through(Vector),
    /// A step of the kernel's stack pointer was into the red zone: the fatal service follows.
    RedZone,
}

/// How an instruction, or a step of one, ended: done, or at a trap.
pub(crate) type Done = Result<(), Trap>;
