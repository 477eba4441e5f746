//! What the devices on the bus do in a turn, and the memory that they need for it. A turn before the nearest due one
//! asks no device, and one in which the clock alone is due asks no other.
ghost use Rattle.std.specs.Prelude.{◌≡◌, ◌<◌, ◌≤◌, ◌^◌, [], true, false, is_some, OnOk, IsOk};
ghost use Rattle.p11_rk11.specs.Acts.{stores_of};
ghost use Rattle.p11_rk11.specs.Kept.View as disks;
ghost use Rattle.p11_unibus.specs.Acts.{bus_after_clock, bus_after_disk, bus_after_line, bus_after_turn};
ghost use Rattle.p11_unibus.specs.Kept.Due.{comes_before, nearest_of};
ghost use Rattle.p11_unibus.specs.Kept.Prepared.{IsPreparedFor, disk_view};
ghost use Rattle.p11_unibus.specs.Prepared.{needs_memory};
ghost use Rattle.p11_dl11.specs.TransmitterEvents.{typed_in};
ghost use Rattle.p11_unibus.specs.Kept.Written.{ChangedOnly};

use crate::due::{look_ahead, look_from};
use crate::laws::the_acts_write_words_of_a_disk_read_alone;
use crate::unibus::Unibus;
use std::alloc::{AllocError, Allocator};

impl<A: Allocator> Unibus<A> {
    /// Finds the memory that the acts of a turn may need: room for a character that is typed in it, and what the drive
    /// needs for a disk write's sector that is due in it.
    #[inline]
    pub fn prepare(&mut self, turn: u64) -> Result<(), AllocError>
        requires { turn ≤ 2 ^ 62 }
        ensures visible { self.new.visible ≡ self.old.visible }
        ensures ok { OnOk result (IsPreparedFor turn self.new.visible self.new.prepared) }
        ensures needless { needs_memory turn self.old.visible ≡ false → IsOk result }
        ensures again { IsPreparedFor turn self.old.visible self.old.prepared → IsOk result }
        ensures others { disks.KeepsPrepared (disk_view self.old.visible self.old.prepared)
            (disk_view self.new.visible self.new.prepared) }
        ensures written { self.new.written ≡ self.old.written }
    {
        if self.rests_but_clock(turn) {
            return Ok(());
        }
        self.find_memory(turn)
    }

    /// Finds that memory where the console line or the disk controller may act in the turn. The line clock needs none.
    #[tactic(auto, unfolding(crate::specs::Prepared::needs_memory))]
    #[inline(never)]
    fn find_memory(&mut self, turn: u64) -> Result<(), AllocError>
        requires { turn ≤ 2 ^ 62 }
        ensures visible { self.new.visible ≡ self.old.visible }
        ensures ok { OnOk result (IsPreparedFor turn self.new.visible self.new.prepared) }
        ensures needless { needs_memory turn self.old.visible ≡ false → IsOk result }
        ensures again { IsPreparedFor turn self.old.visible self.old.prepared → IsOk result }
        ensures others { disks.KeepsPrepared (disk_view self.old.visible self.old.prepared)
            (disk_view self.new.visible self.new.prepared) }
        ensures written { self.new.written ≡ self.old.written }
    {
        let devices = &mut *self.devices;
        self.typed.prepare(devices.line.types_in(turn))?;
        devices.disk.prepare(turn)
    }

    /// What the line clock does in this turn: where it is due, the line ticks.
    #[tactic(auto, unfolding(crate::specs::Acts::bus_after_clock))]
    fn clock_acts(&mut self, turn: u64)
        requires { turn ≤ 2 ^ 62 }
        ensures visible { self.new.visible ≡ bus_after_clock turn self.old.visible }
        ensures prepared { self.new.prepared ≡ self.old.prepared }
        ensures written { self.new.written ≡ self.old.written }
    {
        let but_clock = self.nearest_but_clock();
        let devices = &mut *self.devices;
        devices.clock.act(turn);
        self.ahead = look_from(but_clock, devices);
    }

    /// What the console line does in this turn: the receiver may take a key, then a character that is due is typed.
    #[tactic(auto, unfolding(crate::specs::Acts::bus_after_line))]
    fn line_acts(&mut self, turn: u64)
        requires turn { turn ≤ 2 ^ 62 }
        requires room { is_some (typed_in turn self.old.visible.line.transmitter) ≡ true → 0 < self.old.prepared.room }
        ensures visible { self.new.visible ≡ bus_after_line turn self.old.visible }
        ensures disk { disk_view self.new.visible self.new.prepared ≡ disk_view self.old.visible self.old.prepared }
        ensures written { self.new.written ≡ self.old.written }
    {
        let devices = &mut *self.devices;
        self.typed.put(devices.line.act(turn));
        self.ahead = look_ahead(devices);
    }

    /// What the disk controller does in this turn: the transfer moves its sector where one is due, and seeks that are
    /// due finish. All words of memory to which it may store are listed.
    #[tactic(auto, unfolding(crate::specs::Acts::bus_after_disk))]
    fn disk_acts(&mut self, turn: u64)
        requires turn { turn ≤ 2 ^ 62 }
        requires prepared { disks.IsPreparedFor turn (disk_view self.old.visible self.old.prepared) }
        requires nothing { self.old.written ≡ [] }
        ensures state { self.new.visible ≡ bus_after_disk turn self.old.visible }
        ensures written { self.new.written ≡ stores_of turn self.old.visible.disk }
    {
        let devices = &mut *self.devices;
        self.written.note_all(&devices.disk.stores(turn));
        devices.disk.act(turn, &mut self.memory);
        self.ahead = look_ahead(devices);
    }

    /// What the console line and then the disk controller do in this turn.
    #[tactic(auto, unfolding(crate::specs::Acts::bus_after_line))]
    #[inline(never)]
    fn line_and_disk_act(&mut self, turn: u64)
        requires turn { turn ≤ 2 ^ 62 }
        requires prepared { IsPreparedFor turn self.old.visible self.old.prepared }
        requires nothing { self.old.written ≡ [] }
        ensures state { self.new.visible ≡ bus_after_disk turn (bus_after_line turn self.old.visible) }
        ensures written { self.new.written ≡ stores_of turn self.old.visible.disk }
    {
        self.line_acts(turn);
        self.disk_acts(turn);
    }

    /// What the console line and then the disk controller do in this turn. Before their nearest due turn neither is asked.
    #[tactic(auto, using(crate::proofs::DueLemmas::no_other_change_yet, crate::proofs::DueLemmas::no_other_store_yet))]
    #[inline]
    fn others_act(&mut self, turn: u64)
        requires turn { turn ≤ 2 ^ 62 }
        requires prepared { IsPreparedFor turn self.old.visible self.old.prepared }
        requires nothing { self.old.written ≡ [] }
        ensures state { self.new.visible ≡ bus_after_disk turn (bus_after_line turn self.old.visible) }
        ensures written { self.new.written ≡ stores_of turn self.old.visible.disk }
    {
        if self.rests_but_clock(turn) {
            return;
        }
        self.line_and_disk_act(turn);
    }

    /// Whether this turn comes before the nearest due turn, so that nothing that shows changes by the devices' acts.
    #[tactic(auto, using(crate::proofs::DueLemmas::no_change_yet))]
    #[inline(always)]
    pub fn is_idle_in(&self, turn: u64) -> bool
        ensures before { result ≡ comes_before turn (nearest_of self.now.visible) }
        ensures nothing { result ≡ true → bus_after_turn turn self.now.visible ≡ self.now.visible }
    {
        self.rests(turn)
    }

    /// What the devices do in this turn, each in its place: the line clock, the receiver, the transmitter, the disk
    /// controller. It wants an empty list of written words, and lists all words of memory to which a disk read may store.
    #[tactic(auto, using(crate::proofs::DueLemmas::no_change_yet, crate::proofs::DueLemmas::no_store_yet, crate::proofs::Listing::nothing_changed))]
    #[inline]
    pub fn devices_act(&mut self, turn: u64)
        requires turn { turn ≤ 2 ^ 62 }
        requires prepared { IsPreparedFor turn self.old.visible self.old.prepared }
        requires nothing { self.old.written ≡ [] }
        ensures state { self.new.visible ≡ bus_after_turn turn self.old.visible }
        ensures written { self.new.written ≡ stores_of turn self.old.visible.disk }
        ensures changed { ChangedOnly self.new.written self.old.visible.memory self.new.visible.memory }
    {
        if self.rests(turn) {
            return;
        }
        self.act(turn);
    }

    /// What the devices do in this turn, each in its place, where one may act in it.
    #[tactic(auto, unfolding(crate::specs::Acts::bus_after_turn, crate::specs::Acts::bus_after_clock))]
    fn act(&mut self, turn: u64)
        requires turn { turn ≤ 2 ^ 62 }
        requires prepared { IsPreparedFor turn self.old.visible self.old.prepared }
        requires nothing { self.old.written ≡ [] }
        ensures state { self.new.visible ≡ bus_after_turn turn self.old.visible }
        ensures written { self.new.written ≡ stores_of turn self.old.visible.disk }
        ensures changed { ChangedOnly self.new.written self.old.visible.memory self.new.visible.memory }
    {
        the_acts_write_words_of_a_disk_read_alone();
        self.clock_acts(turn);
        self.others_act(turn);
    }
}
