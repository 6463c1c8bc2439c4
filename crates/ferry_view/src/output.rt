//! Text that is gathered, and goes out many lines at a time.
ghost use Rattle.std.specs.Prelude.{◌≡◌, ◌++◌, ◌<◌, length, IfErr, OnOk, OnErr, option_map};
ghost use Rattle.ferry_disk.specs.Device.{WritesSome, HasCause};
ghost use Rattle.ferry_view.specs.Output.{view_failed, IsOutputFault, Sends};

use crate::fault::ViewFault;
use ferry_disk::Sink;

/// How many bytes of text are gathered before they go out.
const FULL: usize = 65_536;

/// Writes the text that was gathered, where it is 65536 bytes or more, and goes on with none. After an error `text` is as it was.
#[tactic(auto, using(crate::proofs::OutputLemmas::failed_sink))]
pub fn send_full<K: Sink>(text: &mut Vec<u8>, out: &mut K) -> Result<(), ViewFault>
    ensures ok { OnOk result (Sends (K.written out.old) (K.written out.new) text.new.items text.old.items) }
    ensures gathered { OnOk result (length text.new.items < 65536) }
    ensures err { OnErr result (WritesSome (K.written out.old) text.old.items (K.written out.new)) }
    ensures cause { HasCause view_failed (K.faults out.old) (K.faults out.new) result }
    ensures only { IfErr result IsOutputFault }
{
    if text.len() < FULL {
        return Ok(());
    }
    out.write(text)?;
    text.clear();
    Ok(())
}

/// Writes the text that was gathered.
#[tactic(auto, using(crate::proofs::OutputLemmas::failed_sink))]
pub fn send<K: Sink>(text: &[u8], out: &mut K) -> Result<(), ViewFault>
    ensures ok { OnOk result (K.written out.new ≡ option_map (λ w. w ++ text.now) (K.written out.old)) }
    ensures err { OnErr result (WritesSome (K.written out.old) text.now (K.written out.new)) }
    ensures cause { HasCause view_failed (K.faults out.old) (K.faults out.new) result }
    ensures only { IfErr result IsOutputFault }
{
    Ok(out.write(text)?)
}
