// A whole tape.
ghost use Rattle.std.specs.Prelude.{◌≡◌, ◌≢◌, ℕ, ◌+◌, ◌<◌, ◌≤◌, ◌++◌, ◌⊎◌, List, [], length, IfOk, IfErr, OnOk, Ok, Err};
ghost use Rattle.std.specs.List.{enumerate_from};
ghost use Rattle.p11_tape.specs.Fault.{fault};
ghost use Rattle.p11_tape.specs.Reading.{Meaning, reading, start_of};

use crate::block::{after_zeros, next_block};
use crate::bytes::TapeBytes;
use crate::fault::{TapeFault, TapeFaultKind};
use std::alloc::{AllocError, Allocator, Global};

/// What a tape means (chapter 19 of the book): the bytes that it loads, each with its 16-bit address, and the even
/// address at which it starts, if it gives one.
#[derive(Drop)]
pub struct Tape<A: Allocator = Global> {
    /// Its data bytes, each with its address, in tape order. A later byte for the same address comes later.
    pub bytes: TapeBytes<A>,
    /// Where the program on it starts, an even address, if it says so.
    pub start: Option<u16>,
}

/// The start address that a last block's address gives: none if it is odd.
fn start_at(address: u16) -> Option<u16>
    ensures { result ≡ start_of address }
{
    if address % 2 == 0 {
        Some(address)
    } else {
        None
    }
}

/// Counts the data bytes of a tape, or finds its first fault. This takes no memory.
fn check(tape: &[u8]) -> Result<usize, TapeFault>
    ensures ok { IfOk result (λ count. (meaning : Meaning) × (reading tape.now ≡ Ok meaning) × (length meaning.placed ≡ count)) }
    ensures err { IfErr result (λ e. reading tape.now ≡ Err e) }
{
    let mut count = 0;
    let mut rest = after_zeros(tape);
    while !rest.is_empty() {
        let block = next_block(tape, rest)?;
        if block.bytes.is_empty() {
            break;
        }
        count += block.bytes.len();
        rest = after_zeros(block.after);
    }
    Ok(count)
}

/// Puts the data of a block, each byte with its address, behind the others.
fn place<A: Allocator>(
    placed: &mut Vec<(u16, u8), A>,
    address: u16,
    bytes: &[u8],
) -> Result<(), AllocError>
    requires { address + length bytes.now ≤ 65536 }
    ensures { OnOk result (placed.new.items ≡ placed.old.items ++ enumerate_from address bytes.now) }
{
    let before = placed.len();
    placed.resize(before + bytes.len(), (0, 0))?;
    put_pairs(&mut placed[before..], address, bytes);
    Ok(())
}

/// Puts bytes, each with its address, into as many places.
fn put_pairs(places: &mut [(u16, u8)], address: u16, bytes: &[u8])
    requires places { length places.old ≡ length bytes.now }
    requires addresses { address + length bytes.now ≤ 65536 }
    ensures { places.new ≡ enumerate_from address bytes.now }
{
    for (i, byte) in bytes.iter().enumerate() {
        places[i] = (address + i as u16, *byte);
    }
}

/// Puts the data of a whole tape into an empty list, and answers its start address.
fn fill<A: Allocator>(placed: &mut Vec<(u16, u8), A>, tape: &[u8]) -> Result<Option<u16>, TapeFault>
    requires { placed.old.items ≡ [] }
    ensures ok { IfOk result (λ start. reading tape.now ≡ Ok (record { placed = placed.new.items; start = start })) }
    ensures err { IfErr result (λ e. (e ≡ fault TapeFaultKind.Memory 0) ⊎ (reading tape.now ≡ Err e)) }
{
    let mut rest = after_zeros(tape);
    while !rest.is_empty() {
        let block = next_block(tape, rest)?;
        if block.bytes.is_empty() {
            return Ok(start_at(block.address));
        }
        place(placed, block.address, block.bytes)?;
        rest = after_zeros(block.after);
    }
    Ok(None)
}

/// Reads a tape in the absolute binary format of the PDP-11 paper tape software, which its Absolute Loader
/// takes: zeros, data blocks with zeros behind each, and perhaps a last block, which gives the start address. The
/// answer is its data bytes, each with the 16-bit byte address that it is for, and the start address.
///
/// Bytes that are no such tape are refused as a whole, with the first fault and its offset in bytes. A tape is
/// refused for want of memory alone, as `Memory` at 0.
pub fn read_tape<A: Allocator>(alloc: A, tape: &[u8]) -> Result<Tape<A>, TapeFault>
    // What is read is what the tape means.
    ensures read { IfOk result (λ t. reading tape.now ≡ Ok (record { placed = t.bytes; start = t.start })) }
    // What is refused has that fault,
    ensures refused { IfErr result (λ e. e.kind ≢ TapeFaultKind.Memory → reading tape.now ≡ Err e) }
    // or is a tape, and memory ran out.
    ensures memory { IfErr result (λ e. e.kind ≡ TapeFaultKind.Memory →
        (e.at ≡ 0) × (meaning : Meaning) × (reading tape.now ≡ Ok meaning)) }
{
    let count = check(tape)?;
    let mut placed = Vec::with_capacity(alloc, count)?;
    let start = fill(&mut placed, tape)?;
    Ok(Tape {
        bytes: TapeBytes::from_vec(placed),
        start,
    })
}
