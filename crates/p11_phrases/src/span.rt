// The places that a word names: an address, a register, or those from one to another.
ghost use Rattle.std.specs.Prelude.{◌≡◌, ◌≤◌, position, nat_eq};
ghost use Rattle.std.specs.Map.{lookup};
ghost use Rattle.std.specs.Str.{bytes_eq};
ghost use Rattle.p11_phrases.specs.Registers.{register_named, other_names, is_register_address, register_at, are_registers};
ghost use Rattle.p11_phrases.specs.Spans.{location_at, location_of, span_of};

use crate::words::address_of;
use std::alloc::Allocator;

/// A place that can be examined.
#[derive(Clone, Copy)]
pub enum Location {
    /// The word at an address of the bus.
    Word(u32),
    /// A register, by the number that `set` has for it.
    Register(u16),
    /// An address from 777700 to 777717 at which there is no register.
    Missing,
}

/// One place, or those from one to another.
#[derive(Clone, Copy)]
pub enum Span {
    One(Location),
    Range(Location, Location),
}

/// The register of a name, by the number that `set` has for it.
fn register_named(word: &[u8]) -> Option<u16>
    ensures { result ≡ register_named word.now }
{
    if word == b"r0".as_slice() {
        return Some(0);
    }
    if word == b"r1".as_slice() {
        return Some(1);
    }
    if word == b"r2".as_slice() {
        return Some(2);
    }
    if word == b"r3".as_slice() {
        return Some(3);
    }
    if word == b"r4".as_slice() {
        return Some(4);
    }
    if word == b"r5".as_slice() {
        return Some(5);
    }
    if word == b"r6".as_slice() {
        return Some(6);
    }
    if word == b"r7".as_slice() {
        return Some(7);
    }
    pointer_named(word)
}

/// The register of one of the other names.
fn pointer_named(word: &[u8]) -> Option<u16>
    ensures { result ≡ lookup (bytes_eq word.now) other_names }
{
    if word == b"sp".as_slice() {
        return Some(6);
    }
    if word == b"pc".as_slice() {
        return Some(7);
    }
    if word == b"ps".as_slice() {
        return Some(0o11);
    }
    None
}

/// The register at one of the registers' addresses.
fn register_at(address: u32) -> Option<u16>
    requires { 0o777700 ≤ address }
    ensures { result ≡ register_at address }
{
    if address <= 0o777_707 {
        return Some((address - 0o777_700) as u16);
    }
    if address == 0o777_716 {
        return Some(0o10);
    }
    None
}

/// The place at an address.
pub(crate) fn location_at(address: u32) -> Location
    ensures { result ≡ location_at address }
{
    if !is_register_address(address) {
        return Location::Word(address);
    }
    match register_at(address) {
        Some(number) => Location::Register(number),
        None => Location::Missing,
    }
}

/// The place that a word names.
#[tactic(auto, unfolding(crate::specs::Spans::location_of))]
fn location_of<A: Allocator>(alloc: A, word: &[u8]) -> Option<Location>
    ensures { result ≡ location_of A word.now }
{
    if let Some(number) = register_named(word) {
        return Some(Location::Register(number));
    }
    match address_of(alloc, word) {
        Some(address) => Some(location_at(address)),
        None => None,
    }
}

/// The place of the first hyphen.
fn hyphen(word: &[u8]) -> Option<usize>
    ensures { result ≡ position (λ byte. nat_eq byte 0o55) word.now }
{
    word.iter().position(|byte| *byte == b'-')
}

/// The places that a word names.
#[tactic(auto, unfolding(crate::specs::Spans::span_of))]
pub(crate) fn span_of<A: Allocator + Copy>(alloc: A, word: &[u8]) -> Option<Span>
    ensures { result ≡ span_of A word.now }
{
    let Some(hyphen) = hyphen(word) else {
        return match location_of(alloc, word) {
            Some(location) => Some(Span::One(location)),
            None => None,
        };
    };
    let Some(first) = location_of(alloc, &word[..hyphen]) else {
        return None;
    };
    let Some(last) = location_of(alloc, &word[hyphen + 1..]) else {
        return None;
    };
    Some(Span::Range(first, last))
}

/// Whether an address is a register's.
pub(crate) fn is_register_address(address: u32) -> bool
    ensures { result ≡ is_register_address address }
{
    0o777_700 <= address && address <= 0o777_717
}

/// Whether the registers from one to another are there.
pub(crate) fn are_registers(first: u64, last: u64) -> bool
    ensures { result ≡ are_registers first last }
{
    first == last || first <= last && last <= 7
}
