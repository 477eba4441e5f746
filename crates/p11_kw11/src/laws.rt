//! What the definitions of the line clock say together.
ghost use Rattle.std.specs.Prelude.{◌≡◌, ◌<◌, ℕ, IfSome};
ghost use Rattle.p11_kw11.specs.LineClock.{LineClock, clock_after_init, clock_after_turn};

/// INIT twice is INIT once, in every state.
#[tactic(auto, unfolding(crate::specs::LineClock::clock_after_init))]
pub fn init_twice_is_init_once()
    ensures { (k : LineClock) → clock_after_init (clock_after_init k) ≡ clock_after_init k }
{}

/// The acts of a turn before the due turn change nothing, and where none is due those of no turn do.
#[tactic(auto, unfolding(crate::specs::LineClock::clock_after_turn, p11_words::specs::DueTurns::is_due))]
pub fn nothing_happens_before_the_due_turn()
    ensures { (k : LineClock) (turn : ℕ) → IfSome k.due (λ due. turn < due) → clock_after_turn turn k ≡ k }
{}
