//! The controller with its drives: what its registers show, writes of them, INIT, and the packs.
ghost use Rattle.std.specs.Prelude.{◌≡◌, ◌<◌, ◌≤◌, ◌^◌, ◌+◌, ◌*◌, Some, is_some, true, false, option_copied, slice_set, [], replicate, if◌then◌else◌};
ghost use Rattle.p11_rk11.specs.Registers.{is_ready};
ghost use Rattle.p11_rk11.specs.Starts.{disk_after_write, disk_after_control_write, registers_with_value, disk_after_go, disk_after_start, after_start_on};
ghost use Rattle.p11_rk11.specs.State.{new_disk, disk_word, drive_of, selected, with_drive, with_registers_and_drive, seek_due, is_busy, contents_of, disk_after_init, disk_after_mount, disk_after_unmount, drive_count, drive_after_init, disk_after_service, status_of, earlier};
ghost use Rattle.p11_rk11.specs.Calls.Due.{disk_due};
ghost use Rattle.p11_rk11.specs.Calls.Heads.{heads_at};

use crate::bay;
use crate::drives::Drives;
use crate::errors::Failure;
use crate::mounted::Mounted;
use crate::register::Register;
use crate::registers::Registers;
use p11_overlay::Drive;
use p11_words::bit;
use std::alloc::{Allocator, Global};
use std::marker::Model;

/// The number of drives. Their numbers begin with 0.
pub const DRIVES: usize = 8;

/// Where the heads of a mounted drive are, and until when it seeks.
#[derive(Clone, Copy)]
pub struct Heads {
    /// The cylinder, 0 to 202.
    pub cylinder: u8,
    /// The turn in which a seek is done, if one is under way.
    pub due: Option<u64>,
}

/// The RK11 disk controller with its drives.
#[derive(Drop)]
pub struct Rk11<A: Allocator = Global> {
    pub(crate) registers: Registers,
    pub(crate) drives: Drives<A>,
}

impl<A: Allocator> Model for Rk11<A> {
    ghost use Rattle.std.specs.Prelude.{◌≡◌, length};
    ghost use Rattle.p11_rk11.specs.Laws.Registers.{TransferHasPlace};
    ghost use Rattle.p11_rk11.specs.State.{drive_count};
    ghost use Rattle.p11_rk11.specs.Kept.View.{Rk11View, view_of};

    ghost Value = { Rk11View };

    ghost view = { λ c. view_of c.registers c.drives };

    ghost invariant = { λ c. (length c.drives ≡ drive_count) × TransferHasPlace (view_of c.registers c.drives).state };
}

impl<A: Allocator> Rk11<A> {
    ghost use Rattle.p11_rk11.specs.Kept.View.{contents_lent};

    /// A controller as after INIT, with no pack mounted on any of its eight drives.
    #[tactic(auto, unfolding(crate::specs::State::new_disk))]
    pub fn new() -> Self
        ensures state { result.state ≡ new_disk }
        ensures prepared { result.prepared ≡ replicate drive_count [] }
    {
        Rk11 {
            registers: Registers::cleared(),
            drives: Drives::new(),
        }
    }

    /// The word that a register shows in a turn, on which the sector counter in RKDS depends. A read changes nothing.
    #[tactic(auto, unfolding(crate::specs::State::disk_word))]
    pub fn read(&self, turn: u64, register: Register) -> u16
        ensures { result ≡ disk_word turn register self.now.state }
    {
        match register {
            Register::DriveStatus => self.drive_status(turn),
            Register::Error => self.registers.errors,
            Register::ControlStatus => self.registers.control_word(),
            Register::WordCount => self.registers.word_count,
            Register::BusAddress => self.registers.bus_address.low(),
            Register::DiskAddress => self.registers.disk_address.word(),
            Register::DataBuffer => 0,
        }
    }

    /// RKDS as a word.
    fn drive_status(&self, turn: u64) -> u16
        ensures { result ≡ self.now.state.registers.finished_seek * 0o20000
            + status_of turn self.now.state.registers.disk_address.sector (selected self.now.state) }
    {
        let status = self.selected_status(turn);
        u16::from(self.registers.finished_seek.number()) * 0o20000 + status
    }

    /// RKDS but for its bits 15:13.
    fn selected_status(&self, turn: u64) -> u16
        ensures value { result ≡ status_of turn self.now.state.registers.disk_address.sector (selected self.now.state) }
        ensures bound { result < 0o20000 }
    {
        let n = self.registers.disk_address.drive();
        bay::status(
            self.drives.at(n),
            turn,
            self.registers.disk_address.sector(),
        )
    }

    /// Writes a word to a register in a turn, at most 2^62. RKDS, RKER and RKDB ignore it. While a transfer runs RKCS
    /// takes its enable bit alone, and the others ignore it; else GO in RKCS begins the function.
    #[tactic(auto, unfolding(crate::specs::Starts::disk_after_write))]
    pub fn write(&mut self, turn: u64, register: Register, word: u16)
        requires { turn ≤ 2 ^ 62 }
        ensures state { self.new.state ≡ disk_after_write turn register word self.old.state }
        ensures prepared { self.new.prepared ≡ self.old.prepared }
    {
        match register {
            Register::ControlStatus => self.write_control(turn, word),
            Register::DriveStatus
            | Register::Error
            | Register::WordCount
            | Register::BusAddress
            | Register::DiskAddress
            | Register::DataBuffer => self.write_value(register, word),
        }
    }

    /// Writes a register other than RKCS, which is ignored while not ready.
    fn write_value(&mut self, register: Register, word: u16)
        ensures state { self.new.state ≡ (if is_ready self.old.state.registers
            then record self.old.state { registers = registers_with_value register word self.old.state.registers }
            else self.old.state) }
        ensures prepared { self.new.prepared ≡ self.old.prepared }
    {
        if self.registers.is_ready() {
            self.registers.set(register, word);
        }
    }

    /// Writes RKCS.
    #[tactic(auto, unfolding(crate::specs::Starts::disk_after_control_write, crate::specs::Registers::with_enable))]
    fn write_control(&mut self, turn: u64, word: u16)
        requires { turn ≤ 2 ^ 62 }
        ensures state { self.new.state ≡ disk_after_control_write turn word self.old.state }
        ensures prepared { self.new.prepared ≡ self.old.prepared }
    {
        let rises = self.registers.take_enable(word);
        if !self.registers.is_ready() {
            return;
        }
        self.registers.take_control(word);
        if bit(word, 0) {
            self.go(turn);
        } else if rises {
            self.registers.raise_request();
        }
    }

    /// GO, while ready.
    #[tactic(auto, unfolding(crate::specs::Starts::disk_after_go))]
    fn go(&mut self, turn: u64)
        requires { turn ≤ 2 ^ 62 }
        ensures state { self.new.state ≡ disk_after_go turn self.old.state }
        ensures prepared { self.new.prepared ≡ self.old.prepared }
    {
        if self.registers.function.is_reset() {
            self.registers = Registers::cleared();
        } else {
            self.registers.clear_at_go();
            self.start(turn);
        }
    }

    /// Begins one of the functions 1 to 7, if no check holds.
    #[tactic(auto, unfolding(crate::specs::Starts::disk_after_start))]
    fn start(&mut self, turn: u64)
        requires { turn ≤ 2 ^ 62 }
        ensures state { self.new.state ≡ disk_after_start turn self.old.state }
        ensures prepared { self.new.prepared ≡ self.old.prepared }
    {
        if self.registers.format {
            self.registers.fail(Failure::Programming);
            return;
        }
        self.start_on(turn);
    }

    /// Begins a function on the selected drive.
    fn start_on(&mut self, turn: u64)
        requires { turn ≤ 2 ^ 62 }
        ensures state { self.new.state
            ≡ with_registers_and_drive self.old.state self.old.state.registers.disk_address.drive
            (after_start_on turn self.old.state.registers (selected self.old.state)) }
        ensures prepared { self.new.prepared ≡ self.old.prepared }
    {
        let n = self.registers.disk_address.drive();
        let mut drive = self.drives.take(n);
        bay::start(&mut drive, turn, &mut self.registers);
        self.drives.put(n, drive);
    }

    /// The earliest turn in which the transfer or a seek acts, if one is under way.
    #[tactic(auto, unfolding(crate::specs::Calls::Due::disk_due))]
    pub fn due(&self) -> Option<u64>
        ensures { result ≡ disk_due self.now.state }
    {
        let mut due = self.transfer_due();
        for n in 0..DRIVES {
            due = earlier(due, self.seek_due(n));
        }
        due
    }

    /// The turn in which the sector of a running transfer is due.
    pub fn transfer_due(&self) -> Option<u64>
        ensures { result ≡ self.now.state.registers.transfer }
    {
        self.registers.transfer
    }

    /// Whether the controller asks for an interrupt.
    pub fn request(&self) -> bool
        ensures { result ≡ self.now.state.registers.request }
    {
        self.registers.request
    }

    /// The service of the request begins, which drops it.
    #[tactic(auto, unfolding(crate::specs::State::disk_after_service))]
    pub fn ack(&mut self)
        ensures state { self.new.state ≡ disk_after_service self.old.state }
        ensures prepared { self.new.prepared ≡ self.old.prepared }
    {
        self.registers.drop_request();
    }

    /// Mounts a pack on a drive, with the heads at cylinder 0.
    pub fn mount(&mut self, n: usize, drive: Drive<A>)
        requires exists { n < drive_count }
        requires empty { is_some (drive_of self.old.state n) ≡ false }
        ensures state { self.new.state ≡ disk_after_mount n drive.contents self.old.state }
        ensures prepared { self.new.prepared ≡ slice_set self.old.prepared n drive.prepared }
    {
        self.put(n, Mounted::new(drive));
    }

    /// Puts a pack with its heads on a drive.
    fn put(&mut self, n: usize, mounted: Mounted<A>)
        requires { n < drive_count }
        ensures state { self.new.state ≡ with_drive self.old.state n (Some mounted.visible) }
        ensures prepared { self.new.prepared ≡ slice_set self.old.prepared n mounted.prepared }
    {
        self.drives.put(n, Some(mounted));
    }

    /// Takes the pack off a drive and drops it.
    pub fn unmount(&mut self, n: usize)
        requires exists { n < drive_count }
        requires mounted { is_some (drive_of self.old.state n) ≡ true }
        requires idle { is_busy n self.old.state ≡ false }
        ensures state { self.new.state ≡ disk_after_unmount n self.old.state }
        ensures prepared { self.new.prepared ≡ slice_set self.old.prepared n [] }
    {
        self.drives.put(n, None);
    }

    /// Whether a drive seeks or has the running transfer on it.
    #[tactic(auto, unfolding(crate::specs::State::is_busy))]
    pub fn busy(&self, n: usize) -> bool
        ensures { result ≡ is_busy n self.now.state }
    {
        if self.seek_due(n).is_some() {
            return true;
        }
        if self.transfer_due().is_none() {
            return false;
        }
        self.registers.disk_address.drive() == n
    }

    /// The pack of drive `n`, and none if no pack is mounted on it or there is no such drive.
    pub fn drive(&self, n: usize) -> Option<&Drive<A>>
        ensures contents { contents_lent (option_copied result) ≡ contents_of (drive_of self.now.state n) }
        ensures mounted { is_some result ≡ is_some (drive_of self.now.state n) }
    {
        if n < DRIVES {
            bay::drive(self.drives.at(n))
        } else {
            None
        }
    }

    /// The cylinder of drive `n`'s heads, and the due turn of its seek. A pack is mounted on it.
    pub fn heads(&self, n: usize) -> Heads
        requires exists { n < drive_count }
        requires mounted { is_some (drive_of self.now.state n) ≡ true }
        ensures { Some result ≡ heads_at (drive_of self.now.state n) }
    {
        match bay::heads(self.drives.at(n)) {
            Some(heads) => heads,
            None => unreachable!(),
        }
    }

    /// INIT: clears the registers, and ends the transfer and all seeks; the packs stay, and so do the heads
    /// where they were.
    #[tactic(auto, unfolding(crate::specs::State::disk_after_init))]
    pub fn init(&mut self)
        ensures state { self.new.state ≡ disk_after_init self.old.state }
        ensures prepared { self.new.prepared ≡ self.old.prepared }
    {
        for n in 0..DRIVES {
            self.stop(n);
        }
        self.registers = Registers::cleared();
    }

    /// Ends the seek of a drive.
    fn stop(&mut self, n: usize)
        requires { n < drive_count }
        ensures state { self.new.state ≡ with_drive self.old.state n (drive_after_init (drive_of self.old.state n)) }
        ensures prepared { self.new.prepared ≡ self.old.prepared }
    {
        let mut drive = self.drives.take(n);
        bay::stop(&mut drive);
        self.drives.put(n, drive);
    }

    /// The due turn of a drive's seek.
    #[tactic(auto, unfolding(crate::specs::State::seek_due))]
    pub(crate) fn seek_due(&self, n: usize) -> Option<u64>
        ensures { result ≡ seek_due (drive_of self.now.state n) }
    {
        if n < DRIVES {
            bay::seek_due(self.drives.at(n))
        } else {
            None
        }
    }
}

/// The earlier of two due turns.
#[tactic(auto, unfolding(crate::specs::State::earlier))]
fn earlier(one: Option<u64>, other: Option<u64>) -> Option<u64>
    ensures { result ≡ earlier one other }
{
    match (one, other) {
        (None, due) => due,
        (Some(due), None) => Some(due),
        (Some(a), Some(b)) => Some(a.min(b)),
    }
}
