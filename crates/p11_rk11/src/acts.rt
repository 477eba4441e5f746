//! The acts of a turn: the memory that they may need, the transfer's sector, and the seeks that are done.
ghost use Rattle.std.specs.Prelude.{◌≡◌, ◌<◌, ◌≤◌, ◌^◌, ◌+◌, true, false, OnOk, OnErr, IsOk};
ghost use Rattle.p11_rk11.specs.Acts.{disk_after_turn, after_sector_on, disk_after_transfer, stores_of, disk_after_seek, disk_after_seeks};
ghost use Rattle.p11_rk11.specs.Calls.Parts.{disk_and_memory_with};
ghost use Rattle.p11_rk11.specs.Calls.Places.{is_on_disk};
ghost use Rattle.p11_rk11.specs.Place.{sector_number};
ghost use Rattle.p11_words.specs.DueTurns.{is_due};
ghost use Rattle.p11_rk11.specs.State.{selected, drive_count};
ghost use Rattle.p11_rk11.specs.Kept.View.{IsPreparedFor, KeepsPrepared, IsPreparedSector};
ghost use Rattle.p11_rk11.specs.View.{needs_memory, write_is_due, is_listed};

use crate::bay;
use crate::controller::{DRIVES, Rk11};
use crate::sector::Stores;
use p11_memory::WordMemory;
use p11_words::is_due;
use std::alloc::{AllocError, Allocator};

impl<A: Allocator> Rk11<A> {
    /// Finds the memory that the acts of a turn may need: for the sector of a disk write that is due in it.
    /// An `Err` says that there was no memory.
    pub fn prepare(&mut self, turn: u64) -> Result<(), AllocError>
        ensures state { self.new.state ≡ self.old.state }
        ensures ok { OnOk result (IsPreparedFor turn self.new) }
        ensures others { KeepsPrepared self.old self.new }
        ensures err { OnErr result (self.new ≡ self.old) }
        ensures needless { needs_memory turn self.old.state ≡ false → IsOk result }
        ensures again { IsPreparedFor turn self.old → IsOk result }
    {
        if !self.writes_in(turn) {
            return Ok(());
        }
        self.prepare_drive()
    }

    /// Finds the memory for a write of the sector at RKDA.
    fn prepare_drive(&mut self) -> Result<(), AllocError>
        requires { is_on_disk self.old.state.registers.disk_address ≡ true }
        ensures state { self.new.state ≡ self.old.state }
        ensures ok { OnOk result (IsPreparedSector self.new) }
        ensures others { KeepsPrepared self.old self.new }
        ensures err { OnErr result (self.new ≡ self.old) }
        ensures listed { is_listed (selected self.old.state) (sector_number self.old.state.registers.disk_address)
            ≡ true → IsOk result }
        ensures again { IsPreparedSector self.old → IsOk result }
    {
        let n = self.registers.disk_address.drive();
        let mut drive = self.drives.take(n);
        let outcome = bay::prepare(&mut drive, self.registers.disk_address);
        self.drives.put(n, drive);
        outcome
    }

    /// What the controller does in a turn: the transfer moves its sector where one is due, and then
    /// the seeks that are due finish, by number of their drives.
    #[tactic(auto, unfolding(crate::specs::Acts::disk_after_turn))]
    pub fn act<M: WordMemory>(&mut self, turn: u64, memory: &mut M)
        requires turn { turn ≤ 2 ^ 62 }
        requires prepared { IsPreparedFor turn self.old }
        requires room { 256 ≤ M.room memory.old }
        ensures moved { disk_after_turn turn self.old.state (M.words memory.old)
            ≡ (self.new.state, M.words memory.new) }
        ensures room { M.room memory.old ≤ M.room memory.new + 256 }
    {
        self.move_due(turn, memory);
        self.finish_seeks(turn);
    }

    /// The addresses to which the acts of a turn may store: those of the words of a read's sector that is due.
    #[tactic(auto, unfolding(crate::specs::Acts::stores_of))]
    pub fn stores(&self, turn: u64) -> Stores
        ensures { result ≡ stores_of turn self.now.state }
    {
        if is_due(turn, self.transfer_due()) && self.registers.function.is_read() {
            Stores::new(self.registers.span())
        } else {
            Stores::none()
        }
    }

    /// Moves a transfer's sector, if one is due.
    #[tactic(auto, unfolding(crate::specs::Acts::disk_after_transfer))]
    fn move_due<M: WordMemory>(&mut self, turn: u64, memory: &mut M)
        requires turn { turn ≤ 2 ^ 62 }
        requires prepared { IsPreparedFor turn self.old }
        requires room { 256 ≤ M.room memory.old }
        ensures moved { disk_after_transfer turn self.old.state (M.words memory.old)
            ≡ (self.new.state, M.words memory.new) }
        ensures room { M.room memory.old ≤ M.room memory.new + 256 }
    {
        if is_due(turn, self.transfer_due()) {
            self.move_sector(turn, memory);
        }
    }

    /// Moves the due sector of the transfer, which has its place on a mounted drive.
    fn move_sector<M: WordMemory>(&mut self, turn: u64, memory: &mut M)
        requires turn { turn ≤ 2 ^ 62 }
        requires due { is_due turn self.old.state.registers.transfer ≡ true }
        requires prepared { IsPreparedFor turn self.old }
        requires room { 256 ≤ M.room memory.old }
        ensures moved { disk_and_memory_with self.old.state self.old.state.registers.disk_address.drive
            (after_sector_on turn self.old.state.registers (selected self.old.state) (M.words memory.old)) ≡
            (self.new.state, M.words memory.new) }
        ensures room { M.room memory.old ≤ M.room memory.new + 256 }
    {
        let n = self.registers.disk_address.drive();
        let mut drive = self.drives.take(n);
        bay::move_sector(&mut drive, turn, &mut self.registers, memory);
        self.drives.put(n, drive);
    }

    /// Finishes the seeks that are due, by number of their drives.
    fn finish_seeks(&mut self, turn: u64)
        ensures { self.new.state ≡ disk_after_seeks turn drive_count self.old.state }
    {
        for n in 0..DRIVES {
            self.finish_seek(turn, n);
        }
    }

    /// Finishes the seek of a drive, if one is due. A drive without one isn't touched.
    fn finish_seek(&mut self, turn: u64, n: usize)
        requires { n < drive_count }
        ensures { self.new.state ≡ disk_after_seek turn n self.old.state }
    {
        if is_due(turn, self.seek_due(n)) {
            self.end_seek(turn, n);
        }
    }

    /// Finishes the seek of a drive that is taken out and put back.
    #[tactic(auto, unfolding(crate::specs::Acts::disk_after_seek))]
    fn end_seek(&mut self, turn: u64, n: usize)
        requires { n < drive_count }
        ensures { self.new.state ≡ disk_after_seek turn n self.old.state }
    {
        let mut drive = self.drives.take(n);
        bay::finish_seek(&mut drive, turn, n as u8, &mut self.registers);
        self.drives.put(n, drive);
    }

    /// Whether a disk write's sector is due in a turn.
    #[tactic(auto, unfolding(crate::specs::View::write_is_due))]
    fn writes_in(&self, turn: u64) -> bool
        ensures value { result ≡ write_is_due turn self.now.state }
        ensures place { result ≡ true → is_on_disk self.now.state.registers.disk_address ≡ true }
    {
        if !is_due(turn, self.transfer_due()) {
            return false;
        }
        self.registers.function.is_write()
    }
}
