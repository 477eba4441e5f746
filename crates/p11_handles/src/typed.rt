// The typed bytes that the text of answers shows.
ghost use Rattle.std.specs.Prelude.{◌≡◌, ◌<◌, ◌≤◌, ◌-◌, ◌∷◌, ◌++◌, [], length, drop, slice_index, nat_eq};
ghost use Rattle.std.specs.Prelude.{MatchOption, IfSome, OnOk, IfOk};
ghost use Rattle.std.specs.List.{position};
ghost use Rattle.p11_handles.specs.Typed.{escaped_value, written_in, typed_on, typed_in};

use std::alloc::{AllocError, Global};

/// The octal digit at a place, or 0 past the end.
fn digit(text: &[u8], place: usize) -> u32
    ensures value { result ≡ slice_index text.now place - 48 }
    ensures range { result ≤ 207 }
{
    match text.get(place) {
        Some(byte) => u32::from(byte.saturating_sub(b'0')),
        None => 0,
    }
}

/// The byte whose three octal digits stand in front.
#[tactic(auto, unfolding(crate::specs::Typed::escaped_value))]
fn escaped_value(text: &[u8]) -> u8
    ensures { result ≡ escaped_value text.now }
{
    let value = digit(text, 0) * 64 + digit(text, 1) * 8 + digit(text, 2);
    (value % 256) as u8
}

/// What follows three bytes.
fn past_three(text: &[u8]) -> &[u8]
    ensures value { result.now ≡ drop 3 text.now }
    ensures shorter { length result.now ≤ length text.now }
{
    if text.len() < 3 {
        return &text[text.len()..];
    }
    &text[3..]
}

/// The first byte, and the others.
fn first_byte(text: &[u8]) -> (u8, &[u8])
    requires { 0 < length text.now }
    ensures { text.now ≡ result.0 ∷ result.1.now }
{
    (text[0], &text[1..])
}

/// The byte that the front of a text writes, and what follows it.
fn next_byte(text: &[u8]) -> (u8, &[u8])
    requires { 0 < length text.now }
    ensures bytes { written_in text.now ≡ result.0 ∷ written_in result.1.now }
    ensures shorter { length result.1.now < length text.now }
{
    let (byte, after) = first_byte(text);
    if byte == b'\\' {
        (escaped_value(after), past_three(after))
    } else {
        (byte, after)
    }
}

/// Puts the bytes that a text writes behind others.
fn put_written(typed: &mut Vec<u8>, text: &[u8]) -> Result<(), AllocError>
    ensures { OnOk result (typed.new.items ≡ typed.old.items ++ written_in text.now) }
{
    let mut rest = text;
    while !rest.is_empty() {
        let (byte, after) = next_byte(rest);
        typed.push(byte)?;
        rest = after;
    }
    Ok(())
}

/// Puts what a line shows behind other bytes.
#[tactic(auto, unfolding(crate::specs::Typed::typed_on))]
fn put_line(typed: &mut Vec<u8>, line: &[u8]) -> Result<(), AllocError>
    ensures { OnOk result (typed.new.items ≡ typed.old.items ++ typed_on line.now) }
{
    if line.len() < 4 {
        return Ok(());
    }
    let (head, text) = (&line[..4], &line[4..]);
    if head == b"TTY ".as_slice() {
        put_written(typed, text)?;
    }
    Ok(())
}

/// Where the first line ends.
fn line_end(text: &[u8]) -> Option<usize>
    ensures { result ≡ position (λ byte. nat_eq byte 10) text.now }
{
    text.iter().position(|byte| *byte == b'\n')
}

/// The first line of a text, without its LF, and what follows it.
fn next_line(text: &[u8]) -> Option<(&[u8], &[u8])>
    ensures line { MatchOption result (typed_in text.now ≡ [])
        (λ found. typed_in text.now ≡ typed_on found.0.now ++ typed_in found.1.now) }
    ensures shorter { IfSome result (λ found. length found.1.now < length text.now) }
{
    let Some(end) = line_end(text) else {
        return None;
    };
    Some((&text[..end], &text[end + 1..]))
}

/// What the lines of a text show.
pub(crate) fn typed_bytes(alloc: Global, text: &[u8]) -> Result<Vec<u8>, AllocError>
    ensures { IfOk result (λ typed. typed.items ≡ typed_in text.now) }
{
    let mut typed = Vec::new(alloc);
    let mut rest = text;
    while let Some((line, after)) = next_line(rest) {
        put_line(&mut typed, line)?;
        rest = after;
    }
    Ok(typed)
}
