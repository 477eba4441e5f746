//! A drive with its pack and its heads.
ghost use Rattle.std.specs.Prelude.{◌≡◌, ℕ, ◌+◌, ◌<◌, ◌≤◌, ◌^◌, Some, None, true, false, IsTrue, IsOk, OnOk, OnErr, nat_eq};
ghost use Rattle.std.specs.List.{list_any};
ghost use Rattle.p11_rk11.specs.Drives.{MountedDrive};
ghost use Rattle.p11_rk11.specs.Kept.View.{MountedState};
ghost use Rattle.p11_rk11.specs.Acts.{contents_after_sector, memory_after_sector, differs, is_refused, after_sector, drive_after_seek};
ghost use Rattle.p11_rk11.specs.Functions.{is_write, uses_memory, uses_place};
ghost use Rattle.p11_memory.specs.Memory.{all_held};
ghost use Rattle.p11_rk11.specs.Registers.{addresses, words_moved};
ghost use Rattle.p11_rk11.specs.Calls.Places.{is_on_disk};
ghost use Rattle.p11_rk11.specs.Place.{sector_number};
ghost use Rattle.p11_rk11.specs.Starts.{drive_check, seeking, after_begin, after_check, arrival};
ghost use Rattle.p11_rk11.specs.State.{status_of, seek_turn};
ghost use Rattle.p11_rk11.specs.Calls.Heads.{heads_at};

use crate::controller::Heads;
use crate::errors::Failure;
use crate::function::Function;
use crate::place::{Cylinder, DiskAddress};
use crate::registers::Registers;
use crate::sector::{bytes_of, words_of};
use p11_memory::WordMemory;
use p11_overlay::Drive;
use p11_words::flag;
use std::alloc::{AllocError, Allocator, Global};
use std::marker::Model;

/// A seek under way: where the heads go, and when they arrive.
#[derive(Clone, Copy)]
pub struct PendingSeek {
    /// The turn in which the heads arrive.
    pub due: u64,
    /// The cylinder where they go.
    pub cylinder: Cylinder,
}

/// A drive with its pack and its heads.
#[derive(Drop)]
pub(crate) struct Mounted<A: Allocator = Global> {
    drive: Drive<A>,
    cylinder: Cylinder,
    seek: Option<PendingSeek>,
}

impl<A: Allocator> Model for Mounted<A> {
    ghost use Rattle.p11_rk11.specs.Kept.View.{MountedState};

    ghost Value = { MountedState };

    ghost view = { λ m. record {
      visible = record { contents = m.drive.contents; cylinder = m.cylinder; seek = m.seek };
      prepared = m.drive.prepared;
    } };
}

impl<A: Allocator> Mounted<A> {
    /// A drive on which a pack was mounted just now.
    pub(crate) fn new(drive: Drive<A>) -> Self
        ensures visible { result.visible ≡ record { contents = drive.contents; cylinder = 0; seek = None } }
        ensures prepared { result.prepared ≡ drive.prepared }
    {
        Mounted {
            drive,
            cylinder: Cylinder::new(0),
            seek: None,
        }
    }

    /// The pack.
    pub(crate) fn drive(&self) -> &Drive<A>
        ensures contents { result.now.contents ≡ self.now.visible.contents }
        ensures prepared { result.now.prepared ≡ self.now.prepared }
    {
        &self.drive
    }

    /// The due turn of a seek, if one is under way.
    pub(crate) fn seek_due(&self) -> Option<u64>
        ensures { result ≡ seek_turn self.now.visible.seek }
    {
        match self.seek {
            Some(seek) => Some(seek.due),
            None => None,
        }
    }

    pub(crate) fn heads(&self) -> Heads
        ensures { Some result ≡ heads_at (Some self.now.visible) }
    {
        Heads {
            cylinder: self.cylinder.number(),
            due: self.seek_due(),
        }
    }

    /// RKDS but for its bits 15:13: SC, SC=SA, WPS, R/W/S RDY, DRY, SOK and RK05.
    #[tactic(auto, unfolding(crate::specs::State::status_of))]
    pub(crate) fn status(&self, turn: u64, sector: u8) -> u16
        ensures value { result ≡ status_of turn sector (Some self.now.visible) }
        ensures bound { result < 0o20000 }
    {
        let counter = (turn % 12) as u16;
        let is_reached = counter == u16::from(sector);
        counter
            + flag(is_reached, 0o20)
            + flag(self.drive.protected(), 0o40)
            + flag(self.seek.is_none(), 0o100)
            + 0o200
            + 0o400
            + 0o4000
    }

    /// The first check at GO that holds.
    #[tactic(auto, unfolding(crate::specs::Starts::drive_check, crate::specs::Calls::Places::is_on_disk))]
    pub(crate) fn check(&self, registers: &Registers) -> Option<Failure>
        ensures failure { result ≡ drive_check registers.now self.now.visible }
        ensures place { result ≡ None → uses_place registers.now.function ≡ true
            → is_on_disk registers.now.disk_address ≡ true }
    {
        let uses_place = registers.function.uses_place();
        if self.seek.is_some() {
            Some(Failure::DriveError)
        } else if uses_place && registers.disk_address.sector() >= 12 {
            Some(Failure::NoSector)
        } else if uses_place && registers.disk_address.cylinder() >= 203 {
            Some(Failure::NoCylinder)
        } else if registers.function.is_write() && self.drive.protected() {
            Some(Failure::WriteLockout)
        } else {
            None
        }
    }

    /// The turn in which the heads have come to a cylinder.
    fn arrival(&self, turn: u64, cylinder: Cylinder) -> u64
        requires { turn ≤ 2 ^ 62 }
        ensures value { result ≡ arrival turn cylinder self.now.visible }
        ensures bound { result ≤ turn + 16 + 202 }
    {
        turn + 16 + u64::from(cylinder.number().abs_diff(self.cylinder.number()))
    }

    /// Sends the heads to a cylinder.
    #[tactic(auto, unfolding(crate::specs::Starts::seeking))]
    fn send_heads(&mut self, turn: u64, cylinder: Cylinder)
        requires { turn ≤ 2 ^ 62 }
        ensures visible { self.new.visible ≡ seeking turn cylinder self.old.visible }
        ensures prepared { self.new.prepared ≡ self.old.prepared }
    {
        let due = self.arrival(turn, cylinder);
        self.seek = Some(PendingSeek { due, cylinder });
    }

    /// Begins a function whose checks have passed.
    #[tactic(auto, unfolding(crate::specs::Functions::uses_place, crate::specs::Starts::after_begin))]
    pub(crate) fn begin(&mut self, turn: u64, registers: &mut Registers)
        requires turn { turn ≤ 2 ^ 62 }
        requires place { uses_place registers.old.function ≡ true → is_on_disk registers.old.disk_address ≡ true }
        ensures begun { after_begin turn registers.old.function registers.old self.old.visible
            ≡ (registers.new, self.new.visible) }
        ensures prepared { self.new.prepared ≡ self.old.prepared }
    {
        match registers.function {
            Function::Write | Function::Read | Function::WriteCheck | Function::ReadCheck => {
                let arrival = self.arrival(turn, registers.disk_address.cylinder_on_disk());
                registers.transfer = Some(arrival + 32);
            }
            Function::Seek => {
                self.send_heads(turn, registers.disk_address.cylinder_on_disk());
                registers.end();
            }
            Function::DriveReset => {
                self.send_heads(turn, Cylinder::new(0));
                registers.end();
            }
            Function::WriteLock => {
                self.drive.protect();
                registers.end();
            }
            Function::ControlReset => {}
        }
    }

    /// A function that GO begins, unless a check holds.
    pub(crate) fn start(&mut self, turn: u64, registers: &mut Registers)
        requires { turn ≤ 2 ^ 62 }
        ensures started { after_check turn registers.old self.old.visible (drive_check registers.old self.old.visible)
            ≡ (registers.new, self.new.visible) }
        ensures prepared { self.new.prepared ≡ self.old.prepared }
    {
        match self.check(registers) {
            Some(failure) => registers.fail(failure),
            None => self.begin(turn, registers),
        }
    }

    /// The heads have come to where a seek sent them.
    pub(crate) fn arrive(&mut self)
        ensures visible { self.new.visible ≡ drive_after_seek self.old.visible.seek self.old.visible }
        ensures prepared { self.new.prepared ≡ self.old.prepared }
    {
        if let Some(seek) = self.seek {
            self.cylinder = seek.cylinder;
            self.seek = None;
        }
    }

    /// Ends a seek; the heads stay where they were before it.
    pub(crate) fn stop(&mut self)
        ensures visible { self.new.visible ≡ record self.old.visible { seek = None } }
        ensures prepared { self.new.prepared ≡ self.old.prepared }
    {
        self.seek = None;
    }

    /// Finds the memory for a write of a sector.
    pub(crate) fn prepare(&mut self, place: DiskAddress) -> Result<(), AllocError>
        requires { is_on_disk place ≡ true }
        ensures visible { self.new.visible ≡ self.old.visible }
        ensures others { (m : ℕ) → IsTrue (list_any (nat_eq m) self.old.prepared)
            → IsTrue (list_any (nat_eq m) self.new.prepared) }
        ensures ok { OnOk result (IsTrue (list_any (nat_eq (sector_number place)) self.new.prepared)) }
        ensures err { OnErr result (self.new ≡ self.old) }
        ensures prepared { IsTrue (list_any (nat_eq (sector_number place)) self.old.prepared) → IsOk result }
        ensures changed { IsTrue (list_any (nat_eq (sector_number place)) self.old.visible.contents.changed)
            → IsOk result }
    {
        self.drive.prepare(place.sector_number())
    }

    /// Moves the words of one sector, and says whether a write check found a difference.
    #[tactic(auto, unfolding(crate::specs::Acts::contents_after_sector, crate::specs::Acts::memory_after_sector, crate::specs::Acts::differs, crate::specs::Functions::is_write, crate::specs::Functions::uses_memory))]
    fn move_words<M: WordMemory>(&mut self, registers: &Registers, memory: &mut M) -> bool
        requires place { is_on_disk registers.now.disk_address ≡ true }
        requires prepared { IsTrue (is_write registers.now.function)
            → IsTrue (list_any (nat_eq (sector_number registers.now.disk_address)) self.old.prepared) }
        requires held { uses_memory registers.now.function ≡ true
            → all_held (addresses registers.now) (words_moved registers.now) (M.words memory.old) ≡ true }
        requires room { 256 ≤ M.room memory.old }
        ensures visible { self.new.visible
            ≡ record self.old.visible {
              contents = contents_after_sector registers.now.function registers.now
                  (M.words memory.old) self.old.visible.contents;
            } }
        ensures memory { M.words memory.new
            ≡ memory_after_sector registers.now.function registers.now self.old.visible.contents (M.words memory.old) }
        ensures room { M.room memory.old ≤ M.room memory.new + 256 }
        ensures differs { result
            ≡ differs registers.now.function registers.now self.old.visible.contents (M.words memory.old) }
        ensures prepared { self.new.prepared ≡ self.old.prepared }
    {
        let n = registers.disk_address.sector_number();
        let span = registers.span();
        match registers.function {
            Function::Write => {
                self.drive.write(n, &bytes_of(&span.load(memory)));
                false
            }
            Function::Read => {
                span.store(memory, &words_of(self.drive.sector(n)));
                false
            }
            Function::WriteCheck => span.differs(memory, &words_of(self.drive.sector(n))),
            Function::ControlReset
            | Function::Seek
            | Function::ReadCheck
            | Function::DriveReset
            | Function::WriteLock => false,
        }
    }

    /// Moves one sector of a transfer, or ends the function where an address isn't memory.
    #[tactic(auto, unfolding(crate::specs::Acts::after_sector))]
    pub(crate) fn move_sector<M: WordMemory>(
        &mut self,
        turn: u64,
        registers: &mut Registers,
        memory: &mut M,
    )
        requires turn { turn ≤ 2 ^ 62 }
        requires place { is_on_disk registers.old.disk_address ≡ true }
        requires prepared { IsTrue (is_write registers.old.function)
            → IsTrue (list_any (nat_eq (sector_number registers.old.disk_address)) self.old.prepared) }
        requires room { 256 ≤ M.room memory.old }
        ensures moved { after_sector turn registers.old self.old.visible (M.words memory.old)
            ≡ (registers.new, self.new.visible, M.words memory.new) }
        ensures room { M.room memory.old ≤ M.room memory.new + 256 }
        ensures prepared { self.new.prepared ≡ self.old.prepared }
    {
        if is_refused(registers, memory) {
            registers.fail(Failure::NoMemory);
            return;
        }
        let differs = self.move_words(registers, memory);
        self.cylinder = registers.disk_address.cylinder_on_disk();
        registers.sector_moved(turn, differs);
    }
}

/// Whether an address of the sector's words isn't memory.
#[tactic(auto, unfolding(crate::specs::Acts::is_refused))]
fn is_refused<M: WordMemory>(registers: &Registers, memory: &M) -> bool
    ensures { result ≡ is_refused registers.now (M.words memory.now) }
{
    if registers.function.uses_memory() {
        !registers.span().is_held(memory)
    } else {
        false
    }
}
