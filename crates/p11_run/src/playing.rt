// The session of a script.
ghost use Rattle.std.specs.Prelude.{◌≡◌, OnOk, IsErrOf};
ghost use Rattle.p11_panel.specs.Session.{with_store};
ghost use Rattle.p11_run.specs.Sessions.{PlaysAll, PlaysToBreak, PlaysToFault, PlaysToLimit, IsOfSession};

use crate::ending::Cause;
use p11_panel::{Panel, SessionFault, Sink, Source, Store, session};
use std::alloc::Global;

/// Does the lines of a script, and writes their answers. Each line is answered before more of the script is read than
/// was there with it, so the reader may be at the other end of a dialogue. A call that failed is the last one of its
/// kind: it isn't tried again.
pub(crate) fn play_script<S: Store, R: Source, W: Sink>(
    alloc: Global,
    panel: &mut Panel,
    store: &mut S,
    script: &mut R,
    output: &mut W,
) -> Result<(), Cause>
    ensures ok { OnOk result (PlaysAll Global (R.state script.old) (R.state script.new)
        (with_store panel.old (S.state store.old)) (W.state output.old)
        (with_store panel.new (S.state store.new)) (W.state output.new)) }
    ensures fault { IsOfSession result }
    ensures reading { IsErrOf result (Cause.Session SessionFault.Reading)
        → PlaysToFault Global (R.state script.old) (R.state script.new)
        (with_store panel.old (S.state store.old)) (W.state output.old)
        (with_store panel.new (S.state store.new)) (W.state output.new) }
    ensures long { IsErrOf result (Cause.Session SessionFault.TooLong)
        → PlaysToLimit Global (R.state script.old) (R.state script.new)
        (with_store panel.old (S.state store.old)) (W.state output.old)
        (with_store panel.new (S.state store.new)) (W.state output.new) }
    ensures broke { IsErrOf result (Cause.Session SessionFault.Writing)
        → PlaysToBreak Global (R.state script.old) (R.state script.new)
        (with_store panel.old (S.state store.old)) (W.state output.old)
        (with_store panel.new (S.state store.new)) (W.state output.new) }
{
    match session(alloc, panel, store, script, output) {
        Ok(_) => Ok(()),
        Err(fault) => Err(Cause::Session(fault)),
    }
}
