//! Requests for interrupts on the bus, and their grants.
ghost use Rattle.std.specs.Prelude.{◌≡◌, ◌≤◌, ◌^◌, true, false, None, Some};
ghost use Rattle.p11_psw.specs.declared.vector.Vector.TheVariants as vectors;
ghost use Rattle.p11_unibus.specs.Acts.{bus_after_clock, bus_after_turn};
ghost use Rattle.p11_unibus.specs.Kept.Ticks.{ticks_through};
ghost use Rattle.p11_unibus.specs.declared.source.Source.TheVariants as sources;
ghost use Rattle.p11_unibus.specs.Requests.{bus_after_service, grant_of, highest_request, row, stands};

use crate::due::{look_ahead, look_from};
use crate::source::Source;
use crate::unibus::Unibus;
use p11_dl11::Section;
use p11_psw::{Priority, Vector};
use std::alloc::Allocator;

impl<A: Allocator> Unibus<A> {
    /// Whether a source requests an interrupt.
    #[inline(always)]
    fn requests(&self, source: Source) -> bool
        ensures { result ≡ (row source).requests self.now.visible }
    {
        let devices = &*self.devices;
        match source {
            Source::Clock => devices.clock.request(),
            Source::Disk => devices.disk.request(),
            Source::Receiver => devices.line.request(Section::Receiver),
            Source::Transmitter => devices.line.request(Section::Transmitter),
        }
    }

    /// Whether a source requests an interrupt at a level above a priority.
    fn stands(&self, source: Source, priority: Priority) -> bool
        ensures { result ≡ stands source priority self.now.visible }
    {
        self.requests(source) && source.level().is_above(priority)
    }

    /// The source of the highest request above a priority, if one stands.
    #[tactic(auto, unfolding(crate::specs::Requests::highest_request))]
    pub fn highest_request(&self, priority: Priority) -> Option<Source>
        ensures { result ≡ highest_request priority self.now.visible }
    {
        if self.stands(Source::Clock, priority) {
            return Some(Source::Clock);
        }
        if self.stands(Source::Disk, priority) {
            return Some(Source::Disk);
        }
        if self.stands(Source::Receiver, priority) {
            return Some(Source::Receiver);
        }
        if self.stands(Source::Transmitter, priority) {
            return Some(Source::Transmitter);
        }
        None
    }

    /// Whether no source requests an interrupt, as far as is kept.
    #[tactic(auto, using(crate::proofs::QuietLemmas::no_grant))]
    #[inline(always)]
    fn is_quiet(&self) -> bool
        ensures { result ≡ true → (p : Priority) → grant_of p self.now.visible ≡ (self.now.visible, None) }
    {
        0 < self.quiet_until()
    }

    /// Drops the request of a source. That of the clock leaves what is ahead of the other devices.
    #[tactic(auto, unfolding(crate::specs::Requests::bus_after_service))]
    fn acknowledge(&mut self, source: Source)
        ensures state { self.new.visible ≡ bus_after_service source self.old.visible }
        ensures memory { self.new.visible.memory ≡ self.old.visible.memory }
        ensures written { self.new.written ≡ self.old.written }
        ensures prepared { self.new.prepared ≡ self.old.prepared }
    {
        let but_clock = self.nearest_but_clock();
        let devices = &mut *self.devices;
        match source {
            Source::Clock => {
                devices.clock.ack();
                self.ahead = look_from(but_clock, devices);
                return;
            }
            Source::Disk => devices.disk.ack(),
            Source::Receiver => devices.line.ack(Section::Receiver),
            Source::Transmitter => devices.line.ack(Section::Transmitter),
        }
        self.ahead = look_ahead(devices);
    }

    /// Grants the highest request above a priority, which drops it: the vector through which it interrupts.
    #[tactic(auto, unfolding(crate::specs::Requests::grant_of))]
    #[inline(always)]
    pub fn grant(&mut self, priority: Priority) -> Option<Vector>
        ensures outcome { grant_of priority self.old.visible ≡ (self.new.visible, result) }
        ensures memory { self.new.visible.memory ≡ self.old.visible.memory }
        ensures written { self.new.written ≡ self.old.written }
        ensures prepared { self.new.prepared ≡ self.old.prepared }
    {
        if self.is_quiet() {
            return None;
        }
        self.grant_highest(priority)
    }

    /// Grants the highest request above a priority, where a source may request an interrupt.
    #[tactic(auto, unfolding(crate::specs::Requests::grant_of))]
    #[inline(never)]
    fn grant_highest(&mut self, priority: Priority) -> Option<Vector>
        ensures outcome { grant_of priority self.old.visible ≡ (self.new.visible, result) }
        ensures memory { self.new.visible.memory ≡ self.old.visible.memory }
        ensures written { self.new.written ≡ self.old.written }
        ensures prepared { self.new.prepared ≡ self.old.prepared }
    {
        let source = self.highest_request(priority)?;
        self.acknowledge(source);
        Some(source.vector())
    }

    /// Whether the line clock alone acts in a turn, and its tick interrupts a processor of a priority.
    #[tactic(auto, unfolding(crate::specs::Kept::Ticks::ticks_through))]
    #[inline(always)]
    fn ticks_through(&self, turn: u64, priority: Priority) -> bool
        ensures { result ≡ ticks_through turn priority self.now.visible }
    {
        self.devices.clock.interrupts_in(turn)
            && self.rests_but_clock(turn)
            && Source::Clock.level().is_above(priority)
    }

    /// The line clock acts in this turn, and its request is dropped at once.
    #[tactic(auto, unfolding(crate::specs::Acts::bus_after_clock, crate::specs::Requests::bus_after_service))]
    #[inline(always)]
    fn tick_and_acknowledge(&mut self, turn: u64)
        requires { turn ≤ 2 ^ 62 }
        ensures state { self.new.visible ≡ bus_after_service sources.Clock (bus_after_clock turn self.old.visible) }
        ensures memory { self.new.visible.memory ≡ self.old.visible.memory }
        ensures written { self.new.written ≡ self.old.written }
        ensures prepared { self.new.prepared ≡ self.old.prepared }
    {
        let but_clock = self.nearest_but_clock();
        let devices = &mut *self.devices;
        devices.clock.act(turn);
        devices.clock.ack();
        self.ahead = look_from(but_clock, devices);
    }

    /// What the devices do in a turn in which the line clock alone acts and interrupts a processor of this priority, and the
    /// grant of its request: whether it is such a turn. If not, nothing is done.
    #[inline(always)]
    pub fn clock_interrupts(&mut self, turn: u64, priority: Priority) -> bool
        requires { turn ≤ 2 ^ 62 }
        ensures granted { result ≡ true → grant_of priority (bus_after_turn turn self.old.visible)
            ≡ (self.new.visible, Some vectors.Clock) }
        ensures none { result ≡ false → self.new.visible ≡ self.old.visible }
        ensures memory { self.new.visible.memory ≡ self.old.visible.memory }
        ensures written { self.new.written ≡ self.old.written }
        ensures prepared { self.new.prepared ≡ self.old.prepared }
    {
        if !self.ticks_through(turn, priority) {
            return false;
        }
        self.tick_and_acknowledge(turn);
        true
    }
}
