//! When a device acts.
ghost use Rattle.std.specs.Prelude.{◌≡◌};
ghost use Rattle.p11_words.specs.DueTurns.{is_due};

/// Whether an act with this due turn, if it has one, is due in this turn.
#[inline(always)]
#[tactic(auto, unfolding(crate::specs::DueTurns::is_due))]
pub fn is_due(turn: u64, due: Option<u64>) -> bool
    ensures { result ≡ is_due turn due }
{
    match due {
        Some(due) => due == turn,
        None => false,
    }
}
