//! Confinement over runs, the contract of a function that does nothing.
ghost use Rattle.std.specs.Prelude.{◌≡◌, ℕ, length};
ghost use Rattle.p11_cpu.specs.Confinement.{IsConfining};
ghost use Rattle.p11_cpu.specs.State.{State};
ghost use Rattle.p11_cpu.specs.Turns.{after_turns};
ghost use Rattle.p11_panel.specs.Confinement.{ServesNone, StaysConfined};

use p11_cpu::a_user_turn_is_confined;
use p11_unibus::the_acts_write_words_of_a_disk_read_alone;

/// Turns of a user program that memory management keeps off the I/O page, in none of which a service begins: after them
/// it still is, user mode reaches the same words, and every other word of memory is as it was, or as a disk read of
/// these turns last stored it. User mode has eight pages, as in every machine.
pub fn a_user_run_is_confined()
    ensures { (s : State) (k : ℕ) → length s.management.user ≡ 8 → IsConfining s → ServesNone k s
        → StaysConfined k s (after_turns k s) }
{
    a_user_turn_is_confined();
    the_acts_write_words_of_a_disk_read_alone();
}
