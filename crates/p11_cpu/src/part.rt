//! Which part of the machine answers at a bus address.
ghost use Rattle.std.specs.Prelude.{◌≡◌, ◌<◌, true};
ghost use Rattle.p11_cpu.specs.declared.part.Part.TheVariants as parts;
ghost use Rattle.p11_cpu.specs.References.{part_at};

use p11_kt11::Kt11;

/// The bus address of the processor status word.
const STATUS_ADDRESS: u32 = 0o777776;

/// The bus address of the stack limit register.
const LIMIT_ADDRESS: u32 = 0o777774;

/// The lowest bus address at which a register of the processor or of memory management stands.
const FIRST_ADDRESS: u32 = 0o772300;

/// The lowest bus address above the page registers of kernel mode.
const ABOVE_THE_KERNEL_PAGES: u32 = 0o772400;

/// The bus address of SR0.
const STATUS_0_ADDRESS: u32 = 0o777572;

/// What answers at a bus address.
#[derive(Clone, Copy)]
pub(crate) enum Part {
    /// The processor: its status word.
    Status,
    /// The processor: its stack limit register.
    StackLimit,
    /// A register of memory management.
    Management,
    /// What is on the bus, if anything is there.
    Bus,
}

/// Whether a bus address lies above the pages of kernel mode and below SR0: the devices' registers lie there, and none of
/// the processor or of memory management.
#[tactic(auto, unfolding(crate::specs::References::part_at, p11_kt11::specs::Registers::answers, p11_kt11::specs::Register::register_at, p11_kt11::specs::Register::page_from))]
#[inline(always)]
pub(crate) fn is_of_a_device(address: u32) -> bool
    ensures { result ≡ true → part_at address ≡ parts.Bus }
{
    address >= ABOVE_THE_KERNEL_PAGES && address < STATUS_0_ADDRESS
}

impl Part {
    /// The one that answers at a bus address. One comparison finds memory on the bus, and two the devices.
    #[tactic(auto, unfolding(crate::specs::References::part_at, p11_kt11::specs::Registers::answers, p11_kt11::specs::Register::register_at, p11_kt11::specs::Register::page_from))]
    #[inline(always)]
    pub fn at(address: u32) -> Part
        ensures { result ≡ part_at address }
    {
        if address < FIRST_ADDRESS || is_of_a_device(address) {
            Part::Bus
        } else if Kt11::answers(address) {
            Part::Management
        } else if address == STATUS_ADDRESS {
            Part::Status
        } else if address == LIMIT_ADDRESS {
            Part::StackLimit
        } else {
            Part::Bus
        }
    }
}
