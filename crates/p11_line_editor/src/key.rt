// The keys that a line is typed with.
ghost use Rattle.std.specs.Prelude.{◌≡◌};
ghost use Rattle.p11_line_editor.specs.Keys.{plain_key, graphic_key, letter_key, number_key};

/// A key.
#[derive(Clone, Copy, PartialEq, Eq)]
pub enum Key {
    /// A character of the console's language, 040 to 176.
    Character(u8),
    Left,
    Right,
    /// To the beginning of the line.
    Home,
    /// To the end of the line.
    End,
    /// The line before in the history.
    Up,
    /// The line after in the history.
    Down,
    /// Takes away the character before the cursor.
    Back,
    /// Takes away the character under the cursor.
    Delete,
    /// Cuts what is behind the cursor.
    CutEnd,
    /// Cuts what is before the cursor.
    CutFront,
    /// Cuts the word before the cursor.
    CutWord,
    /// Puts in what was cut last.
    Yank,
    /// Clears the screen.
    Screen,
    /// Looks for a line in the history.
    Search,
    /// Leaves the search.
    Leave,
    /// Completes a word.
    Tab,
    /// The line is done.
    Enter,
    /// Gives the line up.
    Interrupt,
    /// The end of the input on an empty line; else as `Delete`.
    EndOfInput,
    /// No key that means anything here.
    Refused,
}

/// The key of a byte that stands alone.
pub(crate) fn plain_key(byte: u8) -> Key
    ensures { result ≡ plain_key byte }
{
    match byte {
        0o1 => Key::Home,
        0o2 => Key::Left,
        0o3 => Key::Interrupt,
        0o4 => Key::EndOfInput,
        0o5 => Key::End,
        0o6 => Key::Right,
        0o7 => Key::Leave,
        0o10 => Key::Back,
        0o11 => Key::Tab,
        0o12 => Key::Enter,
        0o13 => Key::CutEnd,
        0o14 => Key::Screen,
        0o15 => Key::Enter,
        0o16 => Key::Down,
        0o20 => Key::Up,
        0o22 => Key::Search,
        0o25 => Key::CutFront,
        0o27 => Key::CutWord,
        0o31 => Key::Yank,
        0o177 => Key::Back,
        _ => graphic_key(byte),
    }
}

/// A character of the language, or none.
fn graphic_key(byte: u8) -> Key
    ensures { result ≡ graphic_key byte }
{
    if b' ' <= byte && byte <= b'~' {
        Key::Character(byte)
    } else {
        Key::Refused
    }
}

/// The key whose escape sequence ends in a letter.
pub(crate) fn letter_key(letter: u8) -> Option<Key>
    ensures { result ≡ letter_key letter }
{
    match letter {
        b'A' => Some(Key::Up),
        b'B' => Some(Key::Down),
        b'C' => Some(Key::Right),
        b'D' => Some(Key::Left),
        b'F' => Some(Key::End),
        b'H' => Some(Key::Home),
        _ => None,
    }
}

/// The key whose escape sequence has a number and ends in `~`.
pub(crate) fn number_key(number: u8) -> Option<Key>
    ensures { result ≡ number_key number }
{
    match number {
        1 | 7 => Some(Key::Home),
        3 => Some(Key::Delete),
        4 | 8 => Some(Key::End),
        _ => None,
    }
}
