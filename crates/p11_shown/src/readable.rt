// Bytes as a person reads them.
ghost use Rattle.std.specs.Prelude.{◌≡◌, ◌++◌, ◌<◌, OnOk};
ghost use Rattle.p11_shown.specs.Screen.{hex, is_plain, passes_alone, readable, all_readable};

use std::alloc::{AllocError, Allocator};

/// A hexadecimal digit.
fn hex(digit: u8) -> u8
    requires { digit < 16 }
    ensures { result ≡ hex digit }
{
    if digit < 10 { 48 + digit } else { 55 + digit }
}

/// Whether a byte is a printing one.
fn is_plain(byte: u8) -> bool
    ensures { result ≡ is_plain byte }
{
    b' ' <= byte && byte <= b'~'
}

/// Whether a byte passes that is of no sequence.
pub(crate) fn passes_alone(byte: u8) -> bool
    ensures { result ≡ passes_alone byte }
{
    match byte {
        0o0 | 0o7 | 0o10 | 0o11 | 0o12 | 0o13 | 0o14 | 0o15 | 0o16 | 0o17 | 0o177 => true,
        _ => is_plain(byte),
    }
}

/// Adds a byte by printing ones.
#[tactic(auto, unfolding(crate::specs::Screen::readable))]
pub(crate) fn show<A: Allocator>(out: &mut Vec<u8, A>, byte: u8) -> Result<(), AllocError>
    ensures { OnOk result (out.new.items ≡ out.old.items ++ readable byte) }
{
    if is_plain(byte) {
        out.extend_from_slice(&[byte])
    } else {
        out.extend_from_slice(&[b'<', hex(byte / 16), hex(byte % 16), b'>'])
    }
}

/// Adds bytes by printing ones.
#[tactic(auto, unfolding(crate::specs::Screen::all_readable))]
pub(crate) fn show_all<A: Allocator>(out: &mut Vec<u8, A>, bytes: &[u8]) -> Result<(), AllocError>
    ensures { OnOk result (out.new.items ≡ out.old.items ++ all_readable bytes.now) }
{
    let mut rest = bytes;
    while let [byte, after @ ..] = rest {
        show(out, *byte)?;
        rest = after;
    }
    Ok(())
}
