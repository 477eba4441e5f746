// Bytes as a line shows them.
ghost use Rattle.std.specs.Prelude.{◌≡◌, ◌+◌, ◌/◌, ◌%◌, ◌∷◌, [], ◌≤◌};
ghost use Rattle.p11_lines.specs.Escapes.{is_plain};

/// Whether a byte stands for itself: 041 to 176 (octal) but the backslash.
pub(crate) fn is_plain(byte: u8) -> bool
    ensures { result ≡ is_plain byte }
{
    b'!' <= byte && byte <= b'~' && byte != b'\\'
}

/// A number below 8 as a digit.
pub(crate) fn digit(number: u32) -> u8
    requires { number ≤ 7 }
    ensures { result ≡ 48 + number }
{
    b'0' + number as u8
}

/// A backslash and the three octal digits of a byte.
pub(crate) fn escape(byte: u8) -> [u8; 4]
    ensures { result ≡ 0o134 ∷ (48 + byte / 64) ∷ (48 + byte / 8 % 8) ∷ (48 + byte % 8) ∷ [] }
{
    let byte = u32::from(byte);
    [
        b'\\',
        digit(byte / 0o100),
        digit(byte / 0o10 % 8),
        digit(byte % 8),
    ]
}
