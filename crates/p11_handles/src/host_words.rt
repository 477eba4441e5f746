// C's numbers for what a console wants, and for what its host answers.
ghost use Rattle.std.specs.Prelude.{◌≡◌, min};
ghost use Rattle.p11_handles.specs.ConsoleCalls.{number_of_want, number_of_bool, number_of_put, error_of};

use p11_console::{PutFault, Trouble, Want};
use p11_panel::StoreError;

/// The number by which C knows what a console wants.
#[tactic(auto, unfolding(crate::specs::ConsoleCalls::number_of_want))]
pub fn number_of_want(want: Want) -> u32
    ensures { result ≡ number_of_want want }
{
    match want {
        Want::Step => 0,
        Want::Keys => 1,
        Want::Idle => 2,
        Want::Memory => 3,
        Want::Fetch => 4,
        Want::Put => 5,
        Want::Names => 6,
        Want::End => 7,
    }
}

/// Yes is 1.
#[tactic(auto, unfolding(crate::specs::ConsoleCalls::number_of_bool))]
pub fn number_of_bool(is_so: bool) -> u32
    ensures { result ≡ number_of_bool is_so }
{
    if is_so { 1 } else { 0 }
}

/// Why a file can't be had or written, in a few words.
fn reason_of(trouble: u32) -> &'static str {
    match trouble {
        2 => "no such file",
        3 => "permission denied",
        4 => "it is a folder",
        5 => "its folder isn't there, or takes no new file",
        6 => "it can't be read to its end, or is longer than 16,773,120 bytes",
        7 => "there is no memory for it",
        _ => "the host can't read or write it",
    }
}

/// Why the host has no bytes of a file.
#[tactic(auto, unfolding(crate::specs::ConsoleCalls::error_of))]
pub(crate) fn trouble_of(trouble: u32) -> Trouble
    ensures { result.error ≡ error_of trouble }
{
    Trouble {
        error: if trouble == 7 {
            StoreError::NoMemory
        } else {
            StoreError::Refused
        },
        reason: reason_of(trouble),
    }
}

/// What became of a file that was to be written: 0, it is; 1, one is there; else it can't be.
#[tactic(auto, unfolding(crate::specs::ConsoleCalls::number_of_put))]
pub(crate) fn put_of(trouble: u32) -> Result<(), PutFault>
    ensures { number_of_put result ≡ min trouble 2 }
{
    match trouble {
        0 => Ok(()),
        1 => Err(PutFault::There),
        _ => Err(PutFault::Refused {
            reason: reason_of(trouble),
        }),
    }
}
