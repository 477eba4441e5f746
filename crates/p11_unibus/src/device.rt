//! What a device on the bus is, and that the line clock, the console line and the disk controller are devices.
ghost use Rattle.std.specs.Prelude.{◌≡◌, ◌∷◌, [], ℕ, Bool, List, Option, is_some};
ghost use Rattle.p11_memory.specs.Memory.{Words};
ghost use Rattle.p11_unibus.specs.Kept.Devices.{AfterNone, BeforeEach};
ghost use Rattle.p11_unibus.specs.Written.{is_listed};

use p11_dl11::Dl11;
use p11_kw11::Kw11;
use p11_rk11::{Rk11, due_turns_are_later, init_twice_is_init_once};
use std::alloc::Allocator;

/// A device on the bus: it has registers, it can be initialised, and it acts in turns. Three of its calls do nothing,
/// and their contracts are the laws that every device keeps.
pub trait Device {
    /// The bus addresses of its registers.
    ghost addresses: { List ℕ };

    /// Whether one of its registers stands at an address.
    ghost answers: { ℕ → Bool };

    /// The device after INIT.
    ghost after_init: { Self → Self };

    /// The device after its acts in a turn, before which memory holds these words.
    ghost after_turn: { ℕ → Words → Self → Self };

    /// Asked between a turn and the next: the turns in which its parts act if nothing else happens.
    ghost due: { ℕ → Self → List (Option ℕ) };

    /// INIT on the bus.
    fn initialize(&mut self)
        ensures { self.new ≡ after_init self.old };

    /// It answers its own registers alone.
    fn answers_its_own()
        ensures { (address : ℕ) → answers address ≡ is_listed address addresses };

    /// After its acts in a turn it is due in later turns alone, if it was due in none before.
    fn is_due_later()
        ensures { (asked turn : ℕ) (memory : Words) (d : Self) → AfterNone turn (due asked d)
            → BeforeEach turn (due turn (after_turn turn memory d)) };

    /// INIT twice is INIT once.
    fn twice_is_once()
        ensures { (d : Self) → after_init (after_init d) ≡ after_init d };
}

impl Device for Kw11 {
    ghost use Rattle.p11_kw11.specs.Calls.Addresses.{register_at};
    ghost use Rattle.p11_kw11.specs.LineClock.{clock_after_init, clock_after_turn};

    ghost addresses = { 0o777546 ∷ [] };

    ghost answers = { λ address. is_some (register_at address) };

    ghost after_init = { clock_after_init };

    ghost after_turn = { λ turn memory d. clock_after_turn turn d };

    ghost due = { λ turn d. d.due ∷ [] };

    fn initialize(&mut self) {
        self.init();
    }

    #[tactic(auto, unfolding(p11_kw11::specs::Calls::Addresses::register_at, crate::specs::Written::is_listed))]
    fn answers_its_own() {}

    #[tactic(auto, unfolding(p11_kw11::specs::LineClock::clock_after_turn, p11_words::specs::DueTurns::is_due))]
    fn is_due_later() {}

    #[tactic(auto, unfolding(p11_kw11::specs::LineClock::clock_after_init))]
    fn twice_is_once() {}
}

impl<A: Allocator> Device for Dl11<A> {
    ghost use Rattle.p11_dl11.specs.Calls.Addresses.{register_at};
    ghost use Rattle.p11_dl11.specs.LineEvents.{line_after_init, line_after_turn};
    ghost use Rattle.p11_dl11.specs.ReceiverEvents.{receiver_due};
    ghost use Rattle.p11_dl11.specs.TransmitterEvents.{transmitter_due};

    ghost addresses = { 0o777560 ∷ 0o777562 ∷ 0o777564 ∷ 0o777566 ∷ [] };

    ghost answers = { λ address. is_some (register_at address) };

    ghost after_init = { line_after_init };

    ghost after_turn = { λ turn memory d. line_after_turn turn d };

    ghost due = { λ turn d. receiver_due turn d.receiver ∷ transmitter_due d.transmitter ∷ [] };

    fn initialize(&mut self) {
        self.init();
    }

    #[tactic(auto, unfolding(p11_dl11::specs::Calls::Addresses::register_at, crate::specs::Written::is_listed))]
    fn answers_its_own() {}

    fn is_due_later() {}

    #[tactic(auto, unfolding(p11_dl11::specs::LineEvents::line_after_init, p11_dl11::specs::ReceiverEvents::receiver_after_init))]
    fn twice_is_once() {}
}

impl<A: Allocator> Device for Rk11<A> {
    ghost use Rattle.p11_rk11.specs.Acts.{disk_after_turn};
    ghost use Rattle.p11_rk11.specs.Calls.Addresses.{register_at};
    ghost use Rattle.p11_rk11.specs.Calls.Due.{disk_due};
    ghost use Rattle.p11_rk11.specs.State.{disk_after_init};

    ghost addresses = { 0o777400 ∷ 0o777402 ∷ 0o777404 ∷ 0o777406 ∷ 0o777410 ∷ 0o777412 ∷ 0o777416 ∷ [] };

    ghost answers = { λ address. is_some (register_at address) };

    ghost after_init = { λ d. record d { state = disk_after_init d.state } };

    ghost after_turn = { λ turn memory d. record d { state = (disk_after_turn turn d.state memory).0 } };

    ghost due = { λ turn d. disk_due d.state ∷ [] };

    fn initialize(&mut self) {
        self.init();
    }

    #[tactic(auto, unfolding(p11_rk11::specs::Calls::Addresses::register_at, crate::specs::Written::is_listed))]
    fn answers_its_own() {}

    fn is_due_later() {
        due_turns_are_later();
    }

    fn twice_is_once() {
        init_twice_is_init_once();
    }
}
