//! A drive, empty or with a pack mounted.
ghost use Rattle.std.specs.Prelude.{◌≡◌, ℕ, ◌+◌, ◌<◌, ◌≤◌, ◌^◌, Some, None, is_some, true, OnOk, OnErr, IsOk, IsTrue, nat_eq, option_copied};
ghost use Rattle.std.specs.List.{list_any};
ghost use Rattle.p11_rk11.specs.Acts.{after_seek_on, after_sector_on};
ghost use Rattle.p11_rk11.specs.Functions.{is_write};
ghost use Rattle.p11_rk11.specs.Calls.Places.{is_on_disk};
ghost use Rattle.p11_rk11.specs.Place.{sector_number};
ghost use Rattle.p11_rk11.specs.Starts.{after_start_on};
ghost use Rattle.p11_rk11.specs.State.{contents_of, seek_due, status_of, drive_after_init};
ghost use Rattle.p11_rk11.specs.Calls.Heads.{heads_at};
ghost use Rattle.p11_rk11.specs.Kept.View.{visible_drive, prepared_sectors, contents_lent, IsPreparedDrive};
ghost use Rattle.p11_rk11.specs.View.{is_listed};

use crate::controller::Heads;
use crate::errors::Failure;
use crate::mounted::Mounted;
use crate::place::DiskAddress;
use crate::registers::Registers;
use p11_memory::WordMemory;
use p11_overlay::Drive;
use p11_words::is_due;
use std::alloc::{AllocError, Allocator};

/// The pack, if one is mounted.
pub(crate) fn drive<A: Allocator>(bay: &Option<Mounted<A>>) -> Option<&Drive<A>>
    ensures contents { contents_lent (option_copied result) ≡ contents_of (visible_drive bay.now) }
    ensures mounted { is_some result ≡ is_some (visible_drive bay.now) }
{
    match bay {
        Some(mounted) => Some(mounted.drive()),
        None => None,
    }
}

/// Where the heads of a mounted drive are.
pub(crate) fn heads<A: Allocator>(bay: &Option<Mounted<A>>) -> Option<Heads>
    ensures { result ≡ heads_at (visible_drive bay.now) }
{
    match bay {
        Some(mounted) => Some(mounted.heads()),
        None => None,
    }
}

/// The due turn of a seek, if one is under way.
#[tactic(auto, unfolding(crate::specs::State::seek_due))]
pub(crate) fn seek_due<A: Allocator>(bay: &Option<Mounted<A>>) -> Option<u64>
    ensures { result ≡ seek_due (visible_drive bay.now) }
{
    match bay {
        Some(mounted) => mounted.seek_due(),
        None => None,
    }
}

/// RKDS but for its bits 15:13.
#[tactic(auto, unfolding(crate::specs::State::status_of))]
pub(crate) fn status<A: Allocator>(bay: &Option<Mounted<A>>, turn: u64, sector: u8) -> u16
    ensures value { result ≡ status_of turn sector (visible_drive bay.now) }
    ensures bound { result < 0o20000 }
{
    match bay {
        Some(mounted) => mounted.status(turn, sector),
        None => 0,
    }
}

/// Begins a function that GO asks for.
pub(crate) fn start<A: Allocator>(
    bay: &mut Option<Mounted<A>>,
    turn: u64,
    registers: &mut Registers,
)
    requires { turn ≤ 2 ^ 62 }
    ensures started { after_start_on turn registers.old (visible_drive bay.old)
        ≡ (registers.new, visible_drive bay.new) }
    ensures prepared { prepared_sectors bay.new ≡ prepared_sectors bay.old }
{
    match bay.take() {
        Some(mut mounted) => {
            mounted.start(turn, registers);
            *bay = Some(mounted);
        }
        None => registers.fail(Failure::NoDisk),
    }
}

/// Moves the due sector of a transfer.
pub(crate) fn move_sector<A: Allocator, M: WordMemory>(
    bay: &mut Option<Mounted<A>>,
    turn: u64,
    registers: &mut Registers,
    memory: &mut M,
)
    requires turn { turn ≤ 2 ^ 62 }
    requires place { is_on_disk registers.old.disk_address ≡ true }
    requires prepared { is_write registers.old.function ≡ true
        → IsPreparedDrive (visible_drive bay.old) (prepared_sectors bay.old)
        (sector_number registers.old.disk_address) }
    requires room { 256 ≤ M.room memory.old }
    ensures moved { after_sector_on turn registers.old (visible_drive bay.old) (M.words memory.old)
        ≡ (registers.new, visible_drive bay.new, M.words memory.new) }
    ensures room { M.room memory.old ≤ M.room memory.new + 256 }
    ensures prepared { prepared_sectors bay.new ≡ prepared_sectors bay.old }
{
    match bay.take() {
        Some(mut mounted) => {
            mounted.move_sector(turn, registers, memory);
            *bay = Some(mounted);
        }
        None => registers.end(),
    }
}

/// Finishes the seek of drive `n`, if it is due.
pub(crate) fn finish_seek<A: Allocator>(
    bay: &mut Option<Mounted<A>>,
    turn: u64,
    n: u8,
    registers: &mut Registers,
)
    requires { n < 8 }
    ensures done { after_seek_on turn n registers.old (visible_drive bay.old) ≡ (registers.new, visible_drive bay.new) }
    ensures prepared { prepared_sectors bay.new ≡ prepared_sectors bay.old }
{
    if let Some(mut mounted) = bay.take() {
        if is_due(turn, mounted.seek_due()) {
            mounted.arrive();
            registers.complete_search(n);
        }
        *bay = Some(mounted);
    }
}

/// Ends a seek.
pub(crate) fn stop<A: Allocator>(bay: &mut Option<Mounted<A>>)
    ensures visible { visible_drive bay.new ≡ drive_after_init (visible_drive bay.old) }
    ensures prepared { prepared_sectors bay.new ≡ prepared_sectors bay.old }
{
    if let Some(mut mounted) = bay.take() {
        mounted.stop();
        *bay = Some(mounted);
    }
}

/// Finds the memory for a write of a sector.
pub(crate) fn prepare<A: Allocator>(
    bay: &mut Option<Mounted<A>>,
    place: DiskAddress,
) -> Result<(), AllocError>
    requires { is_on_disk place ≡ true }
    ensures visible { visible_drive bay.new ≡ visible_drive bay.old }
    ensures others { (m : ℕ) → IsTrue (list_any (nat_eq m) (prepared_sectors bay.old))
        → IsTrue (list_any (nat_eq m) (prepared_sectors bay.new)) }
    ensures ok { OnOk result (IsPreparedDrive (visible_drive bay.new) (prepared_sectors bay.new)
        (sector_number place)) }
    ensures err { OnErr result (bay.new ≡ bay.old) }
    ensures listed { is_listed (visible_drive bay.old) (sector_number place) ≡ true → IsOk result }
    ensures again { IsPreparedDrive (visible_drive bay.old) (prepared_sectors bay.old) (sector_number place)
        → IsOk result }
{
    match bay.take() {
        Some(mut mounted) => {
            let outcome = mounted.prepare(place);
            *bay = Some(mounted);
            outcome
        }
        None => Ok(()),
    }
}
