//! What the definitions of the console line say together, in every state.
ghost use Rattle.std.specs.Prelude.{ℕ, ◌≡◌, ◌≢◌, ◌<◌, ◌≤◌, Some, None, true};
ghost use Rattle.p11_dl11.specs.LineState.{LineState};
ghost use Rattle.p11_dl11.specs.LineEvents.{line_after_init, line_after_turn};
ghost use Rattle.p11_dl11.specs.Laws.DueTurns.{IsBefore, IsNotAfter};
ghost use Rattle.p11_dl11.specs.ReceiverEvents.{receiver_after_turn, receiver_due};
ghost use Rattle.p11_dl11.specs.TransmitterEvents.{transmitter_due, typed_in};

/// INIT twice is INIT once, in every state of the line.
#[tactic(auto, unfolding(crate::specs::LineEvents::line_after_init, crate::specs::ReceiverEvents::receiver_after_init))]
pub fn init_twice_is_init_once()
    ensures { (l : LineState) → line_after_init (line_after_init l) ≡ line_after_init l }
{}

/// Asked between a turn and the one after it, the line does nothing in a later turn that comes before its due turns.
#[tactic(auto, unfolding(crate::specs::LineEvents::line_after_turn, crate::specs::ReceiverEvents::receiver_after_turn, crate::specs::ReceiverEvents::receiver_due, crate::specs::TransmitterEvents::transmitter_after_turn, crate::specs::TransmitterEvents::transmitter_due, crate::specs::TransmitterEvents::typed_in, p11_words::specs::DueTurns::is_due))]
pub fn nothing_happens_before_due()
    ensures state { (l : LineState) (turn later : ℕ) → turn < later → IsBefore later (receiver_due turn l.receiver)
        → IsBefore later (transmitter_due l.transmitter) → line_after_turn later l ≡ l }
    ensures typed { (l : LineState) (later : ℕ) → IsBefore later (transmitter_due l.transmitter)
        → typed_in later l.transmitter ≡ None }
{}

/// Asked in a later turn that comes before it, the due turn of the receiver is the same. That of the transmitter does
/// not depend on when it is asked.
#[tactic(auto, unfolding(crate::specs::ReceiverEvents::receiver_due))]
pub fn due_turns_stay_until_due()
    ensures { (l : LineState) (turn later : ℕ) → turn ≤ later → IsBefore later (receiver_due turn l.receiver)
        → receiver_due later l.receiver ≡ receiver_due turn l.receiver }
{}

/// The receiver takes a key in the turn that is due, and that turn is above the one in which it was asked.
#[tactic(auto, unfolding(crate::specs::ReceiverEvents::receiver_after_turn, crate::specs::ReceiverEvents::receiver_due))]
pub fn receiver_acts_when_due()
    ensures above { (l : LineState) (turn due : ℕ) → receiver_due turn l.receiver ≡ Some due → turn < due }
    ensures acts { (l : LineState) (turn due : ℕ) → receiver_due turn l.receiver ≡ Some due
        → (receiver_after_turn due l.receiver).done ≡ true }
{}

/// The transmitter types a character in the turn that is due.
#[tactic(auto, unfolding(crate::specs::TransmitterEvents::transmitter_due, crate::specs::TransmitterEvents::typed_in, p11_words::specs::DueTurns::is_due))]
pub fn transmitter_acts_when_due()
    ensures { (l : LineState) (due : ℕ) → transmitter_due l.transmitter ≡ Some due → typed_in due l.transmitter ≢ None }
{}

/// After its acts in a turn the line is due in later turns alone, if the transmitter was not due before that turn.
#[tactic(auto, unfolding(crate::specs::LineEvents::line_after_turn, crate::specs::ReceiverEvents::receiver_after_turn, crate::specs::ReceiverEvents::receiver_due, crate::specs::TransmitterEvents::transmitter_after_turn, crate::specs::TransmitterEvents::transmitter_due, crate::specs::TransmitterEvents::typed_in, p11_words::specs::DueTurns::is_due))]
pub fn due_turns_are_later()
    ensures keys { (l : LineState) (turn : ℕ) → IsBefore turn (receiver_due turn (line_after_turn turn l).receiver) }
    ensures characters { (l : LineState) (turn : ℕ) → IsNotAfter turn (transmitter_due l.transmitter)
        → IsBefore turn (transmitter_due (line_after_turn turn l).transmitter) }
{}
