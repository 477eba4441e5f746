//! The controller's registers as their parts, and what each event makes of them.
ghost use Rattle.std.specs.Prelude.{◌≡◌, ◌<◌, ◌≤◌, ◌+◌, ◌*◌, ◌/◌, ◌^◌, ◌&&◌, not, Some, None, is_some, true, false};
ghost use Rattle.p11_words.specs.Bits.{bit_of};
ghost use Rattle.p11_rk11.specs.Acts.{registers_after_seek};
ghost use Rattle.p11_rk11.specs.Calls.Places.{is_on_disk};
ghost use Rattle.p11_rk11.specs.Starts.{registers_with_value};
ghost use Rattle.p11_rk11.specs.Registers.{cleared_registers, control_word, with_enable, with_control, words_left, words_moved, ended, failed, requested, counters_advanced, registers_after_sector, is_ready};

use crate::address::BusAddress;
use crate::errors::{Failure, WRITE_CHECK};
use crate::function::Function;
use crate::place::{DiskAddress, DriveNumber};
use crate::register::Register;
use crate::sector::Span;
use p11_words::{bit, flag};

/// What the controller's registers hold, with the running transfer and the request for an interrupt.
#[derive(Drop)]
pub struct Registers {
    /// RKER: bit 0 after a write check that found a difference, and the bit of each hard error.
    pub errors: u16,
    /// RKCS 3:1, FUNCTION.
    pub function: Function,
    /// RKCS 6, IDE: whether a request interrupts.
    pub enable: bool,
    /// RKCS 8, SSE: whether a difference in a write check ends it.
    pub stop_on_soft_error: bool,
    /// RKCS 10, FMT.
    pub format: bool,
    /// RKCS 11, IBA: whether all words of a sector have one address.
    pub inhibit_increment: bool,
    /// RKCS 13, SCP.
    pub search_complete: bool,
    /// RKWC.
    pub word_count: u16,
    /// RKCS 5:4, EX, and RKBA.
    pub bus_address: BusAddress,
    /// RKDA.
    pub disk_address: DiskAddress,
    /// RKDS 15:13.
    pub finished_seek: DriveNumber,
    /// The turn in which the running transfer's sector is due. RKCS 7, RDY, is 1 where none runs.
    pub transfer: Option<u64>,
    /// The request for an interrupt.
    pub request: bool,
}

impl Registers {
    /// The registers after INIT or a control reset.
    #[tactic(auto, unfolding(crate::specs::Registers::cleared_registers, crate::specs::Place::place_of_word))]
    pub(crate) fn cleared() -> Registers
        ensures { result ≡ cleared_registers }
    {
        Registers {
            errors: 0,
            function: Function::ControlReset,
            enable: false,
            stop_on_soft_error: false,
            format: false,
            inhibit_increment: false,
            search_complete: false,
            word_count: 0,
            bus_address: BusAddress::zero(),
            disk_address: DiskAddress::from_word(0),
            finished_seek: DriveNumber::new(0),
            transfer: None,
            request: false,
        }
    }

    /// RKCS as a word. GO reads as 0.
    #[tactic(auto, unfolding(crate::specs::Registers::control_word))]
    pub(crate) fn control_word(&self) -> u16
        ensures { result ≡ control_word self.now }
    {
        self.function.number() * 0o2
            + self.bus_address.extension() * 0o20
            + flag(self.enable, 0o100)
            + flag(self.is_ready(), 0o200)
            + flag(self.stop_on_soft_error, 0o400)
            + flag(self.format, 0o2000)
            + flag(self.inhibit_increment, 0o4000)
            + flag(self.search_complete, 0o20000)
            + flag(self.errors / 2 != 0, 0o40000)
            + flag(self.errors != 0, 0o100000)
    }

    /// RKCS takes its enable bit, and says whether that has risen. Without enable no request stands.
    #[tactic(auto, unfolding(crate::specs::Registers::with_enable))]
    pub(crate) fn take_enable(&mut self, word: u16) -> bool
        ensures state { self.new ≡ with_enable word self.old }
        ensures rises { result ≡ (bit_of word 0o100 && not self.old.enable) }
    {
        let was_enabled = self.enable;
        let is_enabled = bit(word, 6);
        self.enable = is_enabled;
        if is_enabled {
            !was_enabled
        } else {
            self.request = false;
            false
        }
    }

    /// RKCS takes what a write gives it while ready, but for enable and GO.
    #[tactic(auto, unfolding(crate::specs::Registers::with_control))]
    pub(crate) fn take_control(&mut self, word: u16)
        ensures { self.new ≡ with_control word self.old }
    {
        self.function = Function::from_number(word >> 1 & 7);
        self.bus_address = self.bus_address.with_extension(word >> 4 & 3);
        self.stop_on_soft_error = bit(word, 8);
        self.format = bit(word, 10);
        self.inhibit_increment = bit(word, 11);
    }

    /// Writes RKWC, RKBA or RKDA. RKBA has no bit 0.
    #[tactic(auto, unfolding(crate::specs::Starts::registers_with_value))]
    pub(crate) fn set(&mut self, register: Register, word: u16)
        ensures { self.new ≡ registers_with_value register word self.old }
    {
        match register {
            Register::WordCount => self.word_count = word,
            Register::BusAddress => self.bus_address = self.bus_address.with_low(word),
            Register::DiskAddress => self.disk_address = DiskAddress::from_word(word),
            Register::DriveStatus
            | Register::Error
            | Register::ControlStatus
            | Register::DataBuffer => {}
        }
    }

    /// Asks for an interrupt, if enable is 1.
    #[tactic(auto, unfolding(crate::specs::Registers::requested))]
    pub(crate) fn raise_request(&mut self)
        ensures { self.new ≡ requested self.old }
    {
        if self.enable {
            self.request = true;
        }
    }

    /// The service of the request begins.
    pub(crate) fn drop_request(&mut self)
        ensures { self.new ≡ record self.old { request = false } }
    {
        self.request = false;
    }

    /// A function ends: ready, and a request.
    #[tactic(auto, unfolding(crate::specs::Registers::ended))]
    pub(crate) fn end(&mut self)
        ensures { self.new ≡ ended self.old }
    {
        self.transfer = None;
        self.raise_request();
    }

    /// A function ends with an error.
    #[tactic(auto, unfolding(crate::specs::Registers::failed))]
    pub(crate) fn fail(&mut self, failure: Failure)
        ensures { self.new ≡ failed failure self.old }
    {
        self.errors |= failure.bit();
        self.end();
    }

    /// Whether no transfer runs.
    pub(crate) fn is_ready(&self) -> bool
        ensures { result ≡ is_ready self.now }
    {
        self.transfer.is_none()
    }

    /// How many words the function has left to move, 1 to 65,536.
    #[tactic(auto, unfolding(crate::specs::Registers::words_left))]
    pub(crate) fn words_left(&self) -> u32
        ensures value { result ≡ words_left self.now }
        ensures some { 0 < result }
    {
        0x1_0000 - u32::from(self.word_count)
    }

    /// The words of one sector that move.
    #[tactic(auto, unfolding(crate::specs::Registers::words_moved))]
    pub(crate) fn words_moved(&self) -> u32
        ensures value { result ≡ words_moved self.now }
        ensures some { 0 < result }
        ensures bound { result ≤ 256 }
    {
        self.words_left().min(256)
    }

    /// The memory of the words that move.
    pub(crate) fn span(&self) -> Span
        ensures start { result.start ≡ self.now.bus_address }
        ensures stays { result.stays ≡ self.now.inhibit_increment }
        ensures count { result.count ≡ words_moved self.now }
        ensures some { 0 < result.count }
        ensures bound { result.count ≤ 256 }
    {
        Span {
            start: self.bus_address,
            stays: self.inhibit_increment,
            count: self.words_moved(),
        }
    }

    /// The counters go on by one sector's words.
    #[tactic(auto, unfolding(crate::specs::Registers::counters_advanced, crate::specs::Registers::words_moved))]
    fn count(&mut self)
        requires { is_on_disk self.old.disk_address ≡ true }
        ensures { self.new ≡ counters_advanced self.old }
    {
        let moved = self.words_moved();
        if self.function.uses_memory() {
            self.bus_address = self.bus_address.after(self.inhibit_increment, moved);
        }
        self.word_count = (u32::from(self.word_count) + moved & 0xffff) as u16;
        self.disk_address = self.disk_address.next();
    }

    /// GO clears the soft error and search complete.
    pub(crate) fn clear_at_go(&mut self)
        ensures { self.new ≡ record self.old { errors = self.old.errors / 2 * 2; search_complete = false } }
    {
        self.errors = self.errors / 2 * 2;
        self.search_complete = false;
    }

    /// A seek is done.
    #[tactic(auto, unfolding(crate::specs::Acts::registers_after_seek))]
    pub(crate) fn complete_search(&mut self, drive: u8)
        requires { drive < 8 }
        ensures { self.new ≡ registers_after_seek drive self.old }
    {
        self.search_complete = true;
        self.finished_seek = DriveNumber::new(drive);
        self.raise_request();
    }

    /// What a moved sector does to the registers: the function ends, or its next sector is due.
    #[tactic(auto, unfolding(crate::specs::Registers::registers_after_sector))]
    pub(crate) fn sector_moved(&mut self, turn: u64, differs: bool)
        requires turn { turn ≤ 2 ^ 62 }
        requires place { is_on_disk self.old.disk_address ≡ true }
        ensures { self.new ≡ registers_after_sector turn differs self.old }
    {
        let ends = self.words_left() <= 256 || differs && self.stop_on_soft_error;
        if differs {
            self.errors |= WRITE_CHECK;
        }
        self.count();
        if ends {
            self.end();
        } else if self.disk_address.cylinder() == 203 {
            self.fail(Failure::Overrun);
        } else {
            self.transfer = Some(turn + 32);
        }
    }
}
