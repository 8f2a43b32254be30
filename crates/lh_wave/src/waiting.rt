//! Text that waits to be written to a sink.
ghost use Rattle.std.specs.Prelude.{◌≡◌, ◌≤◌, true, IfErr, OnOk, IsErrOf};
ghost use Rattle.lh_io.specs.Streams.{Rose, Appends};
ghost use Rattle.lh_wave.specs.Going.{IsPassedOn, StopsShort};

use crate::run::WaveFault;
use lh_io::stream::Sink;
use lh_io::whole::write_all;
use lh_text_buffer::Text;

/// From how much text on what waits is written, in whole lines: a write costs as much as a short frame.
const PIECE: usize = 16384;

/// Writes what waits, where it is long. What waits is whole then.
pub(crate) fn pass_on<K: Sink>(text: &mut Text, out: &mut K) -> Result<(), WaveFault>
    ensures whole { OnOk result (text.old.is_whole ≡ true) }
    ensures told { OnOk result (IsPassedOn text.old.items text.new.items (K.written out.old) (K.written out.new)) }
    ensures err { IfErr result (λ e. StopsShort e text.old (K.written out.old) (K.written out.new)) }
    ensures rose { IsErrOf result WaveFault.WriteFault → Rose (K.faults out.old) (K.faults out.new) }
    ensures never_fall { K.faults out.old ≤ K.faults out.new }
{
    let bytes = text.as_bytes()?;
    if bytes.len() < PIECE {
        return Ok(());
    }
    write_all(out, bytes)?;
    text.clear();
    Ok(())
}

/// Writes all that waits.
pub(crate) fn write_out<K: Sink>(text: &Text, out: &mut K) -> Result<(), WaveFault>
    ensures whole { OnOk result (text.now.is_whole ≡ true) }
    ensures told { OnOk result (Appends (K.written out.old) (K.written out.new) text.now.items) }
    ensures err { IfErr result (λ e. StopsShort e text.now (K.written out.old) (K.written out.new)) }
    ensures rose { IsErrOf result WaveFault.WriteFault → Rose (K.faults out.old) (K.faults out.new) }
    ensures never_fall { K.faults out.old ≤ K.faults out.new }
{
    write_all(out, text.as_bytes()?)?;
    Ok(())
}
