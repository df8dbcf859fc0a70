//! The text of a run.

ghost use Rattle.std.specs.Prelude.{OnOk, OnErr};
ghost use Rattle.spe_disk.specs.Sink.{Appends, AppendsFront, CountsFault};
ghost use Rattle.spe_render.specs.Outcomes.{rendered};

use crate::outcomes::put_clients;
use crate::printer::Printer;
use spe_disk::{Failed, Sink};
use spe_model::Transcripts;

/// Puts the text of transcripts to a sink: for each client a line with its number, from 1, and for
/// each of its transactions a line with its number, from 1, and its outcome, and then the lines of its
/// replies. Where it fails, the sink has taken some first bytes of the text, or none, and failed
/// once: nothing is put after that.
pub fn render<W: Sink>(transcripts: &Transcripts, out: &mut W) -> Result<(), Failed>
    ensures ok { OnOk result (Appends (W.taken out.old) (W.taken out.new) (rendered transcripts.now)) }
    ensures err { OnErr result (AppendsFront (W.taken out.old) (W.taken out.new) (rendered transcripts.now)) }
    ensures counts { CountsFault (W.faults out.old) (W.faults out.new) result }
{
    let mut printer = Printer::new();
    put_clients(&mut printer, out, transcripts.as_slice());
    printer.finish(out)
}
