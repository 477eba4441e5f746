//! What holds of the definitions of a turn, each a function that does nothing, whose contract is the law.
ghost use Rattle.std.specs.Prelude.{◌≡◌, length};
ghost use Rattle.p11_cpu.specs.Laws.Confined.{UserTurnIsConfined, UserTurnKeepsConfining};
ghost use Rattle.p11_cpu.specs.State.{State};
ghost use Rattle.p11_cpu.specs.Turns.{turn_of};

use p11_psw::user_return_stays_in_user_mode;

/// A turn of a user program that memory management keeps off the I/O page, in which no service begins: what comes after
/// the acts of the devices changes at most words that a write of user mode reaches, R0 to R5, PC, the user's stack
/// pointer, T and the condition codes, the wait, SR2, and W of user pages. After it the machine still confines, and
/// user mode reaches the same words. User mode has eight pages, as in every machine.
pub fn a_user_turn_is_confined()
    ensures turn { (s : State) → length s.management.user ≡ 8 → UserTurnIsConfined s (turn_of s).0 }
    ensures still { (s : State) → length s.management.user ≡ 8 → UserTurnKeepsConfining s (turn_of s).0 }
{
    p11_kt11::user_translation_keeps_all_else();
    p11_kt11::user_translation_keeps_the_reach();
    p11_kt11::user_addresses_have_16_bits();
    p11_kt11::registers_stand_on_the_io_page();
    p11_unibus::registers_stand_on_the_io_page();
    user_return_stays_in_user_mode();
}
