// Sequences for a terminal: which are begun, whole, or none that passes.
ghost use Rattle.std.specs.Prelude.{◌≡◌, ◌<◌};
ghost use Rattle.p11_shown.specs.Sequences.{judged, behind_escape, behind_size, behind_set, behind_row, behind_column};
ghost use Rattle.p11_shown.specs.Sequences.{behind_bracket, in_numbers, digit, last, is_mode, is_private_mode, is_plain_mode};

/// What is begun.
#[derive(Clone, Copy, PartialEq, Eq)]
pub enum Phase {
    /// Nothing.
    Start,
    /// ESC.
    Escape,
    /// ESC #.
    Size,
    /// ESC ( or ESC ).
    Set,
    /// ESC Y, behind which come a row and a column.
    Row,
    Column,
    /// ESC [.
    Bracket,
    /// ESC [, perhaps `?`, and numbers: the last one so far, and whether those before it are modes that may be set.
    Numbers {
        is_private: bool,
        are_modes: bool,
        number: u16,
    },
}

/// What a byte is behind what is begun.
#[derive(Clone, Copy, PartialEq, Eq)]
pub enum Verdict {
    /// The sequence goes on.
    Goes(Phase),
    /// The sequence is whole, and passes.
    Whole,
    /// No sequence that passes goes on so: the byte stands alone.
    Alone,
}

/// A byte behind what is begun.
#[tactic(auto, unfolding(crate::specs::Sequences::judged))]
pub(crate) fn judged(phase: Phase, byte: u8) -> Verdict
    ensures { result ≡ judged phase byte }
{
    match phase {
        Phase::Start => Verdict::Alone,
        Phase::Escape => behind_escape(byte),
        Phase::Size => behind_size(byte),
        Phase::Set => behind_set(byte),
        Phase::Row => behind_row(byte),
        Phase::Column => behind_column(byte),
        Phase::Bracket => behind_bracket(byte),
        Phase::Numbers {
            is_private,
            are_modes,
            number,
        } => in_numbers(is_private, are_modes, number, byte),
    }
}

/// A byte behind ESC.
fn behind_escape(byte: u8) -> Verdict
    ensures { result ≡ behind_escape byte }
{
    match byte {
        b'#' => Verdict::Goes(Phase::Size),
        b'(' | b')' => Verdict::Goes(Phase::Set),
        b'Y' => Verdict::Goes(Phase::Row),
        b'[' => Verdict::Goes(Phase::Bracket),
        b'7' | b'8' | b'<' | b'=' | b'>' => Verdict::Whole,
        b'A' | b'B' | b'C' | b'D' | b'E' | b'F' | b'G' => Verdict::Whole,
        b'H' | b'I' | b'J' | b'K' | b'M' => Verdict::Whole,
        _ => Verdict::Alone,
    }
}

/// A byte behind ESC #.
fn behind_size(byte: u8) -> Verdict
    ensures { result ≡ behind_size byte }
{
    match byte {
        b'3' | b'4' | b'5' | b'6' | b'8' => Verdict::Whole,
        _ => Verdict::Alone,
    }
}

/// A byte behind ESC ( or ESC ).
fn behind_set(byte: u8) -> Verdict
    ensures { result ≡ behind_set byte }
{
    match byte {
        b'0' | b'1' | b'2' | b'A' | b'B' => Verdict::Whole,
        _ => Verdict::Alone,
    }
}

/// A byte behind ESC Y.
fn behind_row(byte: u8) -> Verdict
    ensures { result ≡ behind_row byte }
{
    if b' ' <= byte && byte <= b'~' {
        Verdict::Goes(Phase::Column)
    } else {
        Verdict::Alone
    }
}

/// A byte behind ESC Y and a row.
fn behind_column(byte: u8) -> Verdict
    ensures { result ≡ behind_column byte }
{
    if b' ' <= byte && byte <= b'~' {
        Verdict::Whole
    } else {
        Verdict::Alone
    }
}

/// A byte behind ESC [.
fn behind_bracket(byte: u8) -> Verdict
    ensures { result ≡ behind_bracket byte }
{
    if byte == b'?' {
        return Verdict::Goes(Phase::Numbers {
            is_private: true,
            are_modes: true,
            number: 0,
        });
    }
    in_numbers(false, true, 0, byte)
}

/// A byte behind numbers.
fn in_numbers(is_private: bool, are_modes: bool, number: u16, byte: u8) -> Verdict
    ensures { result ≡ in_numbers is_private are_modes number byte }
{
    if b'0' <= byte && byte <= b'9' {
        return digit(is_private, are_modes, number, byte - b'0');
    }
    let all_modes = are_modes && is_mode(is_private, number);
    if byte == b';' {
        return Verdict::Goes(Phase::Numbers {
            is_private,
            are_modes: all_modes,
            number: 0,
        });
    }
    last(is_private, all_modes, byte)
}

/// A digit of a number, which has three at most.
fn digit(is_private: bool, are_modes: bool, number: u16, units: u8) -> Verdict
    requires { units < 10 }
    ensures { result ≡ digit is_private are_modes number units }
{
    if number >= 100 {
        return Verdict::Alone;
    }
    Verdict::Goes(Phase::Numbers {
        is_private,
        are_modes,
        number: number * 10 + u16::from(units),
    })
}

/// The last byte of a sequence with numbers, which may all be modes that may be set.
fn last(is_private: bool, all_modes: bool, byte: u8) -> Verdict
    ensures { result ≡ last is_private all_modes byte }
{
    match byte {
        b'h' | b'l' if all_modes => Verdict::Whole,
        b'@' | b'A' | b'B' | b'C' | b'D' | b'H' | b'J' if !is_private => Verdict::Whole,
        b'K' | b'L' | b'M' | b'P' | b'f' | b'g' | b'm' | b'r' if !is_private => Verdict::Whole,
        _ => Verdict::Alone,
    }
}

/// Whether a program may set a mode.
fn is_mode(is_private: bool, number: u16) -> bool
    ensures { result ≡ is_mode is_private number }
{
    if is_private {
        is_private_mode(number)
    } else {
        is_plain_mode(number)
    }
}

fn is_private_mode(number: u16) -> bool
    ensures { result ≡ is_private_mode number }
{
    1 <= number && number <= 8 || number == 25
}

fn is_plain_mode(number: u16) -> bool
    ensures { result ≡ is_plain_mode number }
{
    number == 4 || number == 20
}
