// Terminals of seven and of eight bits.
ghost use Rattle.std.specs.Prelude.{◌≡◌, IfOk, filter, map};
ghost use Rattle.p11_shown.specs.Bits.{without_parity, is_sent};

use std::alloc::{AllocError, Allocator};

/// How many bits a terminal has.
#[derive(Clone, Copy, PartialEq, Eq)]
pub enum Bits {
    /// The machine's programs may send parity in bit 7.
    Seven,
    Eight,
}

/// A byte that the machine has typed, without its parity.
#[tactic(auto, unfolding(crate::specs::Bits::without_parity))]
fn without_parity(bits: Bits, byte: u8) -> u8
    ensures { result ≡ without_parity bits byte }
{
    match bits {
        Bits::Seven => byte % 128,
        Bits::Eight => byte,
    }
}

/// Bytes that the machine has typed, without their parity.
pub(crate) fn all_without_parity<A: Allocator>(
    alloc: A,
    bits: Bits,
    bytes: &[u8],
) -> Result<Vec<u8, A>, AllocError>
    ensures { IfOk result (λ out. out.items ≡ map (without_parity bits) bytes.now) }
{
    bytes
        .iter()
        .map(|byte| without_parity(bits, *byte))
        .collect(alloc)
}

#[tactic(auto, unfolding(crate::specs::Bits::is_sent))]
fn is_sent(bits: Bits, byte: u8) -> bool
    ensures { result ≡ is_sent bits byte }
{
    match bits {
        Bits::Seven => byte < 128,
        Bits::Eight => true,
    }
}

/// Those of some bytes that the keys of a terminal send.
pub fn sent_of<A: Allocator>(alloc: A, bits: Bits, bytes: &[u8]) -> Result<Vec<u8, A>, AllocError>
    ensures { IfOk result (λ out. out.items ≡ filter (is_sent bits) bytes.now) }
{
    bytes
        .iter()
        .copied()
        .filter(|byte| is_sent(bits, *byte))
        .collect(alloc)
}
