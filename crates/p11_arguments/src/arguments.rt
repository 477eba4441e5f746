//! Reads the command line by clap: sizes and a script's name, or help, the version, or a refusal with its text.
ghost use Rattle.std.specs.Prelude.{◌≡◌, IfOk, map, option_map, codes, false};
ghost use Rattle.std.specs.String.{string_bytes};
ghost use Rattle.clap.specs.Words.{app_of, found_of, rows_of, rule_of};
ghost use Rattle.clap.specs.declared.builder.value_parser.ValueParser.TheVariants.{Unsigned};
ghost use Rattle.p11_arguments.specs.CommandLine.{Asks, command_line, named_program, number_option, text_option, flag_option, number_of, is_given, required_name, rows_in};

use clap::builder::ValueParser;
use clap::error::ErrorKind;
use clap::{Arg, ArgAction, ArgMatches, Command, Error};
use std::alloc::{AllocError, Global};

/// What the words of a command line give: the numbers and the folder, where they are given, and the script's name.
#[derive(Drop)]
pub struct Asked<'a> {
    /// Thousands of words of memory.
    pub memory: Option<u32>,
    /// Decoded words to keep.
    pub lines: Option<u32>,
    /// The folder below which files are looked up.
    pub files: Option<&'a str>,
    /// Whether a save is answered, and writes nothing.
    pub is_saveless: bool,
    /// The name of the script's file, or `-`.
    pub script: &'a str,
}

/// Why the words of a command line name no script to run.
#[derive(Drop)]
pub enum Unasked {
    /// Help or the version was asked for: its text.
    Help(String),
    /// The words are refused: why, and how to write them.
    Usage(String),
    /// A number is none that 32 bits hold.
    BadNumber,
    /// There was no memory to read them.
    NoMemory,
}

impl From<AllocError> for Unasked {
    ghost use Rattle.p11_arguments.specs.declared.arguments.Unasked.TheVariants as reasons;

    ghost from_gives = { λ _ e. e ≡ reasons.NoMemory };

    fn from(_: AllocError) -> Self {
        Unasked::NoMemory
    }
}

/// The version that `--version` shows.
const VERSION: &str = "1.1.0";

/// A number that a 32-bit word holds. Whether a machine can have that size is judged later.
fn number<'a>() -> ValueParser<'a>
    ensures { result ≡ Unsigned 0 4294967295 }
{
    ValueParser::unsigned(0, 4_294_967_295)
}

/// An option with a number.
fn option<'a>(alloc: Global, name: &'a str, value: &'a str, help: &'a str) -> Arg<'a>
    ensures { (rule_of result ≡ number_option name.entry.now) × (result.global ≡ false) }
{
    Arg::new(alloc, name)
        .long(name)
        .value_name(value)
        .value_parser(number())
        .help(help)
}

/// An option with the name of a folder.
fn folder<'a>(alloc: Global, name: &'a str, help: &'a str) -> Arg<'a>
    ensures { (rule_of result ≡ text_option name.entry.now) × (result.global ≡ false) }
{
    Arg::new(alloc, name)
        .long(name)
        .value_name("FOLDER")
        .help(help)
}

/// An option that stands alone.
fn flag<'a>(alloc: Global, name: &'a str, help: &'a str) -> Arg<'a>
    ensures { (rule_of result ≡ flag_option name.entry.now) × (result.global ≡ false) }
{
    Arg::new(alloc, name)
        .long(name)
        .action(ArgAction::SetTrue)
        .help(help)
}

/// The name of the script.
fn script<'a>(alloc: Global) -> Arg<'a>
    ensures { (rule_of result ≡ required_name (codes "SCRIPT")) × (result.global ≡ false) }
{
    Arg::new(alloc, "SCRIPT")
        .required(true)
        .help("The operator's script; - is standard input")
}

/// The program, without its arguments.
fn program<'a>(alloc: Global) -> Command<'a>
    ensures { app_of result ≡ named_program (codes "p11") }
{
    Command::new(alloc, "p11")
        .version(VERSION)
        .about("A PDP-11/40 under an operator's script")
}

/// The command line that the program has.
fn command<'a>(alloc: Global) -> Result<Command<'a>, AllocError>
    ensures { IfOk result (λ command. app_of command ≡ command_line) }
{
    let memory = option(
        alloc,
        "memory",
        "K",
        "Thousands of words of memory: 4 to 124 in steps of 4 [default: 28]",
    );
    let lines = option(
        alloc,
        "lines",
        "N",
        "Decoded words to keep: 0 to 4096 [default: 1024]",
    );
    let files = folder(
        alloc,
        "files",
        "Look up the files of lines below FOLDER, and no others",
    );
    let saveless = flag(alloc, "no-save", "Answer each save, and write nothing");
    program(alloc)
        .arg(memory)?
        .arg(lines)?
        .arg(files)?
        .arg(saveless)?
        .arg(script(alloc))
}

/// What clap answers, as the reason why no script is named.
fn cause_of(alloc: Global, error: &Error) -> Unasked {
    if error.kind() == ErrorKind::OutOfMemory {
        return Unasked::NoMemory;
    }
    let Ok(text) = format!(in alloc; "{error}") else {
        return Unasked::NoMemory;
    };
    if error.use_stderr() {
        Unasked::Usage(text)
    } else {
        Unasked::Help(text)
    }
}

/// What the words stand for.
fn matches<'a>(alloc: Global, words: &'a [String]) -> Result<ArgMatches<'a>, Error>
    ensures { IfOk result (λ matches. rows_of (found_of matches) ≡ rows_in (map string_bytes words.now)) }
{
    command(alloc)?.try_get_matches_from(words)
}

/// The number that a text says, where there is one.
fn number_of_text(text: Option<&str>) -> Result<Option<u32>, Unasked>
    ensures { IfOk result (λ number. number ≡ number_of (option_map (λ t. t.now) text.entry)) }
{
    let Some(text) = text else {
        return Ok(None);
    };
    match text.parse::<u32>() {
        Ok(number) => Ok(Some(number)),
        Err(_) => Err(Unasked::BadNumber),
    }
}

/// Whether an option is given that stands alone.
fn is_given(text: Option<&str>) -> bool
    ensures { result ≡ is_given (option_map (λ t. t.now) text.entry) }
{
    match text {
        Some(text) => text == "true",
        None => false,
    }
}

/// Reads the words of a command line, of which the first is the program's name.
pub fn read_command_line<'a>(alloc: Global, words: &'a [String]) -> Result<Asked<'a>, Unasked>
    ensures { IfOk result (λ asked. Asks (rows_in (map string_bytes words.now)) asked) }
{
    let matches = match matches(alloc, words) {
        Ok(matches) => matches,
        Err(error) => return Err(cause_of(alloc, &error)),
    };
    let memory = number_of_text(matches.get_str("memory"))?;
    let lines = number_of_text(matches.get_str("lines"))?;
    let files = matches.get_str("files");
    let is_saveless = is_given(matches.get_str("no-save"));
    let script = matches.get_str("SCRIPT").unwrap_or("");
    Ok(Asked {
        memory,
        lines,
        files,
        is_saveless,
        script,
    })
}
