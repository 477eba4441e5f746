//! The stack limit of kernel mode.
ghost use Rattle.std.specs.Prelude.{◌≡◌};
ghost use Rattle.p11_psw.specs.Zones.{zone_of};

use crate::zones::Zone;

/// The zone of a stack pointer, where the stack limit register holds this word: the limit is 400 (octal) more than it.
#[tactic(auto, unfolding(crate::specs::Zones::zone_of))]
#[inline(always)]
pub fn zone(register: u16, sp: u16) -> Zone
    ensures { result ≡ zone_of register sp }
{
    let limit = u32::from(register) + 0o400;
    let sp = u32::from(sp);
    if sp >= limit {
        Zone::Clear
    } else if sp + 0o40 >= limit {
        Zone::Yellow
    } else {
        Zone::Red
    }
}
