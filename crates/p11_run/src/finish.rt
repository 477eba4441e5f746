// What the program says as it ends, and its exit status.
ghost use Rattle.std.specs.Prelude.{◌≡◌, [], OnOk, OnErr};
ghost use Rattle.p11_lines.specs.Writers.{Writes};
ghost use Rattle.p11_lines.specs.Written.{AppendsFront};
ghost use Rattle.p11_run.specs.Endings.{EndsBy, Says, status_of, text_of};

use crate::ending::{Cause, ending};
use p11_lines::{Broken, Sink};
use p11_panel::SessionFault;

/// Writes a text. A write that failed isn't tried again.
fn say<W: Sink>(writer: &mut W, text: &str) -> Result<(), Broken>
    ensures ok { OnOk result (Writes (W.state writer.old) (W.state writer.new) text.now []) }
    ensures err { OnErr result (AppendsFront (W.state writer.old) (W.state writer.new) text.now) }
{
    let mut rest = text.as_bytes();
    while !rest.is_empty() {
        match writer.write(rest) {
            Ok(0) => return Err(Broken),
            Ok(count) => rest = &rest[count..],
            Err(_) => return Err(Broken),
        }
    }
    Ok(())
}

/// Says on standard output and standard error why the program ends: its exit status. Help goes to standard output, and all
/// else to standard error. Help that can't be written whole is a write fault, which is then said on standard error.
pub(crate) fn finish<O: Sink, E: Sink>(output: &mut O, errors: &mut E, cause: &Cause) -> u8
    ensures { EndsBy cause.now result (O.state output.old) (O.state output.new) (E.state errors.old) (E.state errors.new) }
{
    if let Cause::Help(help) = cause {
        if say(output, help.as_str()).is_ok() {
            return 0;
        }
        return finish_on_errors(errors, &Cause::Session(SessionFault::Writing));
    }
    finish_on_errors(errors, cause)
}

/// Says on standard error why the program ends: its exit status.
fn finish_on_errors<E: Sink>(errors: &mut E, cause: &Cause) -> u8
    ensures status { result ≡ status_of cause.now }
    ensures text { Says (E.state errors.old) (E.state errors.new) (text_of cause.now) }
{
    let (status, text) = ending(cause);
    match say(errors, text) {
        Ok(()) => status,
        Err(_) => status,
    }
}
