// What the command line asks for.
use crate::ending::Cause;
use clap::builder::ValueParser;
use clap::error::ErrorKind;
use clap::{Arg, ArgAction, ArgMatches, Command, Error};
use p11_host::Hertz;
use p11_panel::{Config, MOST_TURNS};
use p11_shown::Bits;
use std::alloc::{AllocError, Global};

/// The sizes of the machine, and how the dialogue is held.
#[derive(Drop)]
pub(crate) struct Launch<'a> {
    pub(crate) config: Config,
    /// Thousands (1,024) of words of memory.
    pub(crate) memory: u32,
    /// Decoded words that are kept.
    pub(crate) lines: u32,
    /// Turns of a slice.
    pub(crate) slice: u32,
    /// The record's file.
    pub(crate) record: Option<&'a str>,
    /// The history's file.
    pub(crate) history: Option<&'a str>,
    /// The folder below which files are looked up.
    pub(crate) files: Option<&'a str>,
    /// Whether the machine's terminal comes behind the script.
    pub(crate) is_talk: bool,
    /// Whether the script is all.
    pub(crate) is_batch: bool,
    /// Whether the script ends at its first refused line.
    pub(crate) is_strict: bool,
    /// Whether `save` writes nothing.
    pub(crate) is_saveless: bool,
    /// Minutes between two times at which packs that no file has are kept; 0: never.
    pub(crate) autosave: u32,
    /// Whether all that is typed passes to the terminal.
    pub(crate) is_raw: bool,
    /// How many bits the machine's terminal has.
    pub(crate) bits: Bits,
    /// How often the line clock ticks, by the host's clock.
    pub(crate) hertz: Option<Hertz>,
    /// The most turns of a second.
    pub(crate) speed: Option<u32>,
    pub(crate) script: Option<&'a str>,
}

/// The version that `--version` shows.
pub(crate) const VERSION: &str = "1.1.0";

const MEMORY: u32 = 28;

const LINES: u32 = 1024;

/// So many turns take some 50 ms.
const SLICE: u32 = 1_000_000;

/// The fewest turns of a second that may be asked for.
const LEAST_SPEED: u32 = 1_000;

/// What an option takes.
enum Value {
    Nothing,
    /// One of the words that the help shows.
    Word(&'static str),
    /// A number, which the help shows by this letter.
    Number(&'static str),
    /// The name of a file.
    File,
    /// The name of a folder.
    Folder,
}

/// An argument that an option asks for, or that may not stand beside it.
enum Beside {
    Any,
    Needs(&'static str),
    Never(&'static str),
}

/// An option of the command line.
struct Choice {
    name: &'static str,
    value: Value,
    beside: Beside,
    help: &'static str,
}

/// The options, in the order in which the help shows them.
static CHOICES: [Choice; 15] = [
    Choice {
        name: "memory",
        value: Value::Number("K"),
        beside: Beside::Any,
        help: "Thousands of words of memory: 4 to 124 in steps of 4 [default: 28]",
    },
    Choice {
        name: "lines",
        value: Value::Number("N"),
        beside: Beside::Any,
        help: "Decoded words to keep: 0 to 4096 [default: 1024]",
    },
    Choice {
        name: "slice",
        value: Value::Number("S"),
        beside: Beside::Any,
        help: "Turns between two looks at the keyboard [default: 1000000]",
    },
    Choice {
        name: "record",
        value: Value::File,
        beside: Beside::Any,
        help: "A new file for the lines of what is done, which p11 plays again",
    },
    Choice {
        name: "history",
        value: Value::File,
        beside: Beside::Any,
        help: "A file that keeps the lines which are typed, for later dialogues",
    },
    Choice {
        name: "files",
        value: Value::Folder,
        beside: Beside::Any,
        help: "Look up the files of lines below FOLDER, and no others",
    },
    Choice {
        name: "no-save",
        value: Value::Nothing,
        beside: Beside::Any,
        help: "Answer each save, and write nothing; the end says what it would have been",
    },
    Choice {
        name: "autosave",
        value: Value::Number("N"),
        beside: Beside::Never("no-save"),
        help: "Every N minutes keep packs that no file has in NAME.rescue",
    },
    Choice {
        name: "raw",
        value: Value::Nothing,
        beside: Beside::Any,
        help: "Write what the machine types as it is, also what a terminal acts on",
    },
    Choice {
        name: "bits",
        value: Value::Word("7|8"),
        beside: Beside::Any,
        help: "Bits of the machine's terminal; 7: parity isn't shown, a key above 177 rings [default: 7, with --raw 8]",
    },
    Choice {
        name: "hz",
        value: Value::Word("60|50|off"),
        beside: Beside::Never("batch"),
        help: "Ticks of the line clock in a second of the host's clock [default: off; of --talk PACK 60]",
    },
    Choice {
        name: "speed",
        value: Value::Number("N"),
        beside: Beside::Never("batch"),
        help: "Turns in a second at most: 1000 to 100000000; an 11/40 has about 400000",
    },
    Choice {
        name: "batch",
        value: Value::Nothing,
        beside: Beside::Needs("SCRIPT"),
        help: "Do the script alone, answer as p11, and say on standard error what is refused",
    },
    Choice {
        name: "strict",
        value: Value::Nothing,
        beside: Beside::Needs("batch"),
        help: "With --batch: end at the first refused line, with status 1",
    },
    Choice {
        name: "talk",
        value: Value::Nothing,
        beside: Beside::Never("batch"),
        help: "Sit at the machine's terminal at once",
    },
];

impl Choice {
    /// The option, as clap takes it.
    fn arg<'a>(&self, alloc: Global) -> Result<Arg<'a>, AllocError> {
        let arg = Arg::new(alloc, self.name).long(self.name).help(self.help);
        let arg = match self.value {
            Value::Nothing => arg.action(ArgAction::SetTrue),
            Value::Number(letter) => arg
                .value_name(letter)
                .value_parser(ValueParser::unsigned(0, 4_294_967_295)),
            Value::Word(words) => arg.value_name(words),
            Value::File => arg.value_name("FILE"),
            Value::Folder => arg.value_name("FOLDER"),
        };
        match self.beside {
            Beside::Any => Ok(arg),
            Beside::Needs(name) => arg.requires_arg(name),
            Beside::Never(name) => arg.conflicts_with(name),
        }
    }
}

/// The program, without its arguments.
fn program<'a>(alloc: Global) -> Command<'a> {
    Command::new(alloc, "terminal").version(VERSION).about(
        "A PDP-11/40 with its console and its terminal, for a person",
    )
}

/// The command line that the program has.
fn command<'a>(alloc: Global) -> Result<Command<'a>, AllocError> {
    let mut command = program(alloc);
    for choice in &CHOICES {
        command = command.arg(choice.arg(alloc)?)?;
    }
    command.arg(Arg::new(alloc, "SCRIPT").help("Lines for the console that are done first"))
}

/// What clap answers, as the cause of an ending.
fn cause_of(alloc: Global, error: &Error) -> Cause {
    if error.kind() == ErrorKind::OutOfMemory {
        return Cause::NoMemory;
    }
    let Ok(text) = format!(in alloc; "{error}") else {
        return Cause::NoMemory;
    };
    if error.use_stderr() {
        Cause::Usage(text)
    } else {
        Cause::Help(text)
    }
}

fn matches<'a>(alloc: Global, words: &'a [String]) -> Result<ArgMatches<'a>, Error> {
    command(alloc)?.try_get_matches_from(words)
}

/// The number that a text says, and another where there is no text.
fn number_or(text: Option<&str>, other: u32) -> Result<u32, Cause> {
    let Some(text) = text else {
        return Ok(other);
    };
    match text.parse::<u32>() {
        Ok(number) => Ok(number),
        Err(_) => Err(Cause::BadSize),
    }
}

/// The bits that a text says. What isn't to be cut for a terminal has eight.
fn bits_of(text: Option<&str>, is_raw: bool) -> Result<Bits, Cause> {
    match text {
        None if is_raw => Ok(Bits::Eight),
        None | Some("7") => Ok(Bits::Seven),
        Some("8") => Ok(Bits::Eight),
        Some(_) => Err(Cause::BadBits),
    }
}

/// The ticks of a second that a text says.
fn hertz_of(text: Option<&str>) -> Result<Option<Hertz>, Cause> {
    match text {
        None | Some("off") => Ok(None),
        Some("50") => Ok(Some(Hertz::Fifty)),
        Some("60") => Ok(Some(Hertz::Sixty)),
        Some(_) => Err(Cause::BadHertz),
    }
}

/// The most turns of a second that a text says.
fn speed_of(text: Option<&str>) -> Result<Option<u32>, Cause> {
    let Some(text) = text else {
        return Ok(None);
    };
    match text.parse::<u32>() {
        Ok(speed) if speed >= LEAST_SPEED && speed <= MOST_TURNS => Ok(Some(speed)),
        _ => Err(Cause::BadSpeed),
    }
}

/// Reads the words of a command line, of which the first is the program's name.
pub(crate) fn settings<'a>(alloc: Global, words: &'a [String]) -> Result<Launch<'a>, Cause> {
    let matches = match matches(alloc, words) {
        Ok(matches) => matches,
        Err(error) => return Err(cause_of(alloc, &error)),
    };
    let memory = number_or(matches.get_str("memory"), MEMORY)?;
    let lines = number_or(matches.get_str("lines"), LINES)?;
    let slice = number_or(matches.get_str("slice"), SLICE)?;
    let autosave = number_or(matches.get_str("autosave"), 0)?;
    let is_raw = matches.get_flag("raw");
    let bits = bits_of(matches.get_str("bits"), is_raw)?;
    let hertz = hertz_of(matches.get_str("hz"))?;
    let speed = speed_of(matches.get_str("speed"))?;
    if slice == 0 || slice > MOST_TURNS {
        return Err(Cause::BadSlice);
    }
    let Ok(config) = Config::new(memory, lines) else {
        return Err(Cause::BadSize);
    };
    Ok(Launch {
        config,
        memory,
        lines,
        slice,
        record: matches.get_str("record"),
        history: matches.get_str("history"),
        files: matches.get_str("files"),
        is_talk: matches.get_flag("talk"),
        is_batch: matches.get_flag("batch"),
        is_strict: matches.get_flag("strict"),
        is_saveless: matches.get_flag("no-save"),
        autosave,
        is_raw,
        bits,
        hertz,
        speed,
        script: matches.get_str("SCRIPT"),
    })
}
