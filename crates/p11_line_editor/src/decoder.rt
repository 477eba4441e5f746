// From the bytes of a keyboard to keys.
ghost use Rattle.std.specs.Prelude.{◌≡◌};
ghost use Rattle.p11_line_editor.specs.Decoding.{decoded, first_of, behind_escape, in_application, in_sequence, in_longer};
ghost use Rattle.p11_line_editor.specs.Decoding.{in_message, in_character, behind_lone, paused};

use crate::key::{Key, letter_key, number_key, plain_key};

/// What the bytes so far are the beginning of.
#[derive(Clone, Copy, PartialEq, Eq)]
pub enum DecoderPhase {
    /// Nothing.
    Start,
    /// An escape sequence of which ESC alone is there.
    Escape,
    /// An ESC behind which the keyboard paused.
    Lone,
    /// ESC and O.
    Application,
    /// ESC and [, and at most one digit behind it.
    Sequence { digit: u8 },
    /// A sequence with more in it, which means no key.
    Longer,
    /// A text for the terminal, which means no key.
    Message,
    /// A character that isn't ASCII, with so many bytes left.
    Character { left: u8 },
}

/// Makes keys of bytes. An escape sequence and a character that isn't ASCII are one key or none.
#[derive(Clone, Copy)]
pub struct Decoder {
    pub(crate) phase: DecoderPhase,
}

impl Decoder {
    /// No byte has come.
    pub fn new() -> Self
        ensures { result.phase ≡ DecoderPhase.Start }
    {
        Decoder {
            phase: DecoderPhase::Start,
        }
    }

    /// The key that a byte ends, if it does.
    pub fn key(&mut self, byte: u8) -> Option<Key>
        ensures { decoded self.old.phase byte ≡ (self.new.phase, result) }
    {
        let (phase, key) = step(self.phase, byte);
        self.phase = phase;
        key
    }

    /// The keyboard has nothing more for now: an ESC that stands alone was no key.
    pub fn pause(&mut self)
        ensures { self.new.phase ≡ paused self.old.phase }
    {
        if let DecoderPhase::Escape = self.phase {
            self.phase = DecoderPhase::Lone;
        }
    }
}

/// A byte behind what a phase has.
#[tactic(auto, unfolding(crate::specs::Decoding::decoded))]
fn step(phase: DecoderPhase, byte: u8) -> (DecoderPhase, Option<Key>)
    ensures { result ≡ decoded phase byte }
{
    match phase {
        DecoderPhase::Start => first(byte),
        DecoderPhase::Escape => behind_escape(byte),
        DecoderPhase::Lone => behind_lone(byte),
        DecoderPhase::Application => in_application(byte),
        DecoderPhase::Sequence { digit } => in_sequence(digit, byte),
        DecoderPhase::Longer => in_longer(byte),
        DecoderPhase::Message => in_message(byte),
        DecoderPhase::Character { left } => in_character(left, byte),
    }
}

/// A byte where no sequence has begun.
fn first(byte: u8) -> (DecoderPhase, Option<Key>)
    ensures { result ≡ first_of byte }
{
    if byte == 0o33 {
        return (DecoderPhase::Escape, None);
    }
    if 0o302 <= byte && byte <= 0o337 {
        return (DecoderPhase::Character { left: 1 }, Some(Key::Refused));
    }
    if 0o340 <= byte && byte <= 0o357 {
        return (DecoderPhase::Character { left: 2 }, Some(Key::Refused));
    }
    if 0o360 <= byte && byte <= 0o364 {
        return (DecoderPhase::Character { left: 3 }, Some(Key::Refused));
    }
    (DecoderPhase::Start, Some(plain_key(byte)))
}

/// A byte behind ESC.
fn behind_escape(byte: u8) -> (DecoderPhase, Option<Key>)
    ensures { result ≡ behind_escape byte }
{
    if byte == b'[' {
        return (DecoderPhase::Sequence { digit: 0 }, None);
    }
    if byte == b'O' {
        return (DecoderPhase::Application, None);
    }
    if byte == b'P' || byte == b'X' || byte == b']' || byte == b'^' || byte == b'_' {
        return (DecoderPhase::Message, None);
    }
    if 0o40 <= byte && byte <= 0o57 {
        return (DecoderPhase::Longer, None);
    }
    if 0o60 <= byte && byte <= 0o176 {
        return (DecoderPhase::Start, None);
    }
    first(byte)
}

/// A byte behind an ESC that stood alone: of a sequence that was cut, or the next key.
fn behind_lone(byte: u8) -> (DecoderPhase, Option<Key>)
    ensures { result ≡ behind_lone byte }
{
    if byte == b'[' || byte == b'O' {
        behind_escape(byte)
    } else {
        first(byte)
    }
}

/// A byte behind ESC and O.
fn in_application(byte: u8) -> (DecoderPhase, Option<Key>)
    ensures { result ≡ in_application byte }
{
    if 0o60 <= byte && byte <= 0o77 {
        return (DecoderPhase::Application, None);
    }
    if 0o40 <= byte && byte <= 0o176 {
        return (DecoderPhase::Start, letter_key(byte));
    }
    first(byte)
}

/// A byte behind ESC and [ and at most one digit.
fn in_sequence(digit: u8, byte: u8) -> (DecoderPhase, Option<Key>)
    ensures { result ≡ in_sequence digit byte }
{
    if digit == 0 && byte == b'[' {
        return (DecoderPhase::Longer, None);
    }
    if digit == 0 && b'1' <= byte && byte <= b'9' {
        return (DecoderPhase::Sequence { digit: byte - b'0' }, None);
    }
    if byte == b'~' {
        return (DecoderPhase::Start, number_key(digit));
    }
    if digit == 0 && 0o100 <= byte && byte <= 0o176 {
        return (DecoderPhase::Start, letter_key(byte));
    }
    in_longer(byte)
}

/// A byte in a sequence that means no key.
fn in_longer(byte: u8) -> (DecoderPhase, Option<Key>)
    ensures { result ≡ in_longer byte }
{
    if 0o40 <= byte && byte <= 0o77 {
        return (DecoderPhase::Longer, None);
    }
    if 0o100 <= byte && byte <= 0o176 {
        return (DecoderPhase::Start, None);
    }
    first(byte)
}

/// A byte in a text for the terminal, which BEL or another control character ends.
fn in_message(byte: u8) -> (DecoderPhase, Option<Key>)
    ensures { result ≡ in_message byte }
{
    if byte == 0o7 {
        return (DecoderPhase::Start, None);
    }
    if byte < 0o40 {
        return first(byte);
    }
    (DecoderPhase::Message, None)
}

/// A byte in a character that isn't ASCII.
fn in_character(left: u8, byte: u8) -> (DecoderPhase, Option<Key>)
    ensures { result ≡ in_character left byte }
{
    if byte < 0o200 || 0o277 < byte {
        return first(byte);
    }
    if left <= 1 {
        return (DecoderPhase::Start, None);
    }
    (DecoderPhase::Character { left: left - 1 }, None)
}
