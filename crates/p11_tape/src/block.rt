// One block of a tape, and the zeros between blocks.
ghost use Rattle.std.specs.Prelude.{◌≡◌, ◌≢◌, ◌+◌, ◌-◌, ◌*◌, ◌%◌, ◌<◌, ◌≤◌, ◌^◌, ℕ, List, length, sum, slice_index, replicate, ◌++◌, Some, None, IfOk, IfErr};
ghost use Rattle.p11_tape.specs.Fault.{fault, wrong_of, word_at, count_at};
ghost use Rattle.p11_tape.specs.Calls.Begins.{BeginsWith, BeginsWithZeros, IsWhole};

use crate::fault::{TapeFault, TapeFaultKind};
use byteorder::{ByteOrder, LittleEndian};

/// The bytes that a header has, and that the count covers beside the data.
const HEADER: usize = 6;

/// The addresses that there are.
const ADDRESSES: usize = 65536;

/// A sound block at the front of some bytes.
#[derive(Drop)]
pub struct Block<'a> {
    /// Where its data goes, or the start address.
    pub address: u16,
    pub bytes: &'a [u8],
    /// What follows it.
    pub after: &'a [u8],
}

/// A fault at an offset in the tape.
fn fault_at(kind: TapeFaultKind, at: usize) -> TapeFault
    ensures { result ≡ fault kind at }
{
    TapeFault { kind, at }
}

/// What follows the zeros at the front of a tape's bytes.
#[tactic(auto, using(crate::proofs::ZeroLemmas::behind_none, crate::proofs::ZeroLemmas::behind_one_more))]
pub fn after_zeros(bytes: &[u8]) -> &[u8]
    ensures shorter { length result.now ≤ length bytes.now }
    ensures zeros { BeginsWithZeros bytes.now result.now }
{
    let mut rest = bytes;
    while !rest.is_empty() && rest[0] == 0 {
        rest = &rest[1..];
    }
    rest
}

/// The word at an offset, its low byte first.
fn word(bytes: &[u8], at: usize) -> u16
    requires { at + 1 < length bytes.now }
    ensures { result ≡ word_at bytes.now at }
{
    LittleEndian::read_u16(&bytes[at..])
}

/// The sum of all bytes modulo 2^8.
fn sum_of(bytes: &[u8]) -> u8
    ensures { result ≡ sum bytes.now % 256 }
{
    let mut total = 0u8;
    for byte in bytes {
        total = total.wrapping_add(*byte);
    }
    total
}

/// The count of the block at the front of these bytes, all of which is there, or what is wrong with it. The
/// bytes lie at an offset in the tape, from whose first byte a fault is counted.
#[tactic(auto, unfolding(crate::specs::Fault::wrong_of, crate::specs::Fault::count_at))]
fn count_of(offset: usize, bytes: &[u8]) -> Result<usize, TapeFault>
    requires some { 0 < length bytes.now }
    requires within { offset + length bytes.now < 2 ^ 64 }
    ensures ok { IfOk result (λ count. IsWhole bytes.now × (count ≡ count_at bytes.now)) }
    ensures err { IfErr result (λ fault. wrong_of offset bytes.now ≡ Some fault) }
{
    let short = fault_at(TapeFaultKind::Short, offset + bytes.len());
    if bytes[0] != 1 {
        return Err(fault_at(TapeFaultKind::Stray, offset));
    }
    if bytes.len() < 2 {
        return Err(short);
    }
    if bytes[1] != 0 {
        return Err(fault_at(TapeFaultKind::Stray, offset + 1));
    }
    if bytes.len() < 4 {
        return Err(short);
    }
    let count = usize::from(word(bytes, 2));
    if count < HEADER {
        return Err(fault_at(TapeFaultKind::Count, offset + 2));
    }
    if bytes.len() <= count {
        return Err(short);
    }
    Ok(count)
}

/// The block that begins what is left of a tape (chapter 19 of the book), or what is wrong with it, with its offset in
/// bytes from the first byte of the tape.
#[tactic(auto, unfolding(crate::specs::Fault::wrong_of, crate::specs::Fault::count_at, crate::specs::Fault::address_at))]
pub fn next_block<'a>(tape: &[u8], rest: &'a [u8]) -> Result<Block<'a>, TapeFault>
    requires some { 0 < length rest.now }
    requires within { length rest.now ≤ length tape.now }
    ensures ok { IfOk result (λ block. BeginsWith rest.now block.address block.bytes.now block.after.now) }
    ensures shorter { IfOk result (λ block. length block.bytes.now + length block.after.now < length rest.now) }
    ensures err { IfErr result (λ fault. wrong_of (length tape.now - length rest.now) rest.now ≡ Some fault) }
{
    let offset = tape.len() - rest.len();
    let count = count_of(offset, rest)?;
    let address = word(rest, 4);
    if usize::from(address) + (count - HEADER) > ADDRESSES {
        return Err(fault_at(TapeFaultKind::Wrap, offset));
    }
    if sum_of(&rest[..count + 1]) != 0 {
        return Err(fault_at(TapeFaultKind::Sum, offset + count));
    }
    Ok(Block {
        address,
        bytes: &rest[HEADER..count],
        after: &rest[count + 1..],
    })
}
