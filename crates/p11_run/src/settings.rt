//! Turns the command line into the machine's sizes and the script's name.
ghost use Rattle.std.specs.Prelude.{◌≡◌, ◌↔◌, IsTrue, IfOk, IfErr, map, option_map, codes};
ghost use Rattle.std.specs.String.{string_bytes};
ghost use Rattle.p11_arguments.specs.CommandLine.{rows_in, files_in, is_saveless_in, script_in};
ghost use Rattle.p11_run.specs.Launches.{AsksFor, SizesIn};
ghost use Rattle.p11_run.specs.declared.ending.Cause.TheVariants as causes;

use crate::ending::Cause;
use p11_arguments::read_command_line;
use p11_panel::Config;
use std::alloc::Global;

/// The sizes of the machine, the script that it runs, and the files that this reaches.
#[derive(Drop)]
pub struct Launch<'a> {
    pub config: Config,
    /// The folder below which files are looked up.
    pub files: Option<&'a str>,
    /// Whether a save is answered, and writes nothing.
    pub is_saveless: bool,
    /// The name of the script's file, or `-`.
    pub script: &'a str,
}

impl<'a> Launch<'a> {
    /// Whether the script is what comes on standard input.
    pub fn is_from_standard_input(&self) -> bool
        ensures { IsTrue result ↔ (self.now.script.now ≡ codes "-") }
    {
        self.script == "-"
    }
}

const MEMORY: u32 = 28;

const LINES: u32 = 1024;

/// The sizes that two numbers ask for.
fn sizes(memory: Option<u32>, lines: Option<u32>) -> Result<Config, Cause>
    ensures ok { IfOk result (λ config. AsksFor memory lines config) }
    ensures err { IfErr result (λ cause. cause ≡ causes.BadSize) }
{
    match Config::new(memory.unwrap_or(MEMORY), lines.unwrap_or(LINES)) {
        Ok(config) => Ok(config),
        Err(_) => Err(Cause::BadSize),
    }
}

/// Reads the command line, whose first word is the program's name. The sizes are those that `Config::new` makes of the
/// numbers that are given, 28 and 1,024 where they aren't.
pub fn settings<'a>(alloc: Global, words: &'a [String]) -> Result<Launch<'a>, Cause>
    ensures sizes { IfOk result (λ launch. SizesIn (rows_in (map string_bytes words.now)) launch.config) }
    ensures files { IfOk result (λ launch. option_map (λ t. t.now) launch.files ≡ files_in (rows_in (map string_bytes words.now))) }
    ensures saves { IfOk result (λ launch. launch.is_saveless ≡ is_saveless_in (rows_in (map string_bytes words.now))) }
    ensures script { IfOk result (λ launch. launch.script.now ≡ script_in (rows_in (map string_bytes words.now))) }
{
    let asked = read_command_line(alloc, words)?;
    let config = sizes(asked.memory, asked.lines)?;
    Ok(Launch {
        config,
        files: asked.files,
        is_saveless: asked.is_saveless,
        script: asked.script,
    })
}
