//! The lines of the heads of a trace and of a waveform.
ghost use Rattle.lh_text_buffer.specs.Writing.{Writes};
ghost use Rattle.lh_types.specs.Types.{IsData, bit_count};
ghost use Rattle.lh_unit.specs.Pieces.{render};
ghost use Rattle.lh_unit.specs.CanonTypes.{type_pieces};
ghost use Rattle.lh_wave.specs.HeadText.{signal_line, scope_line, variable_line};

use crate::code::put_code;
use lh_print::types::put_type;
use lh_text_buffer::Text;
use lh_types::ty::{Ty, bits};

/// The first line of a waveform: what its times count.
pub(crate) const TIMESCALE: &[u8] = b"$timescale 1 fs $end\n";

/// The line that ends a scope of a waveform.
pub(crate) const UPSCOPE: &[u8] = b"$upscope $end\n";

/// The line that ends the head of a waveform.
pub(crate) const END_OF_HEAD: &[u8] = b"$enddefinitions $end\n";

/// Puts the line of a signal of a trace at the end of a text: its number, its type, the path of its instance and its name.
pub(crate) fn put_signal(to: &mut Text, signal: u64, ty: &Ty, path: &[u8], name: &[u8])
    ensures { Writes to.old to.new (signal_line signal (render (type_pieces ty.now)) path.now name.now) }
{
    to.put(b"sig ");
    to.put_number(signal);
    to.put(b" ");
    put_type(to, ty);
    to.put(b" ");
    to.put(path);
    to.put(b".");
    to.put(name);
    to.put(b"\n");
}

/// Puts the line that begins the scope of an instance of this label at the end of a text.
pub(crate) fn put_scope(to: &mut Text, label: &[u8])
    ensures { Writes to.old to.new (scope_line label.now) }
{
    to.put(b"$scope module ");
    to.put(label);
    to.put(b" $end\n");
}

/// Puts the line of a signal of a waveform at the end of a text: how many bits it has, its code and its name.
pub(crate) fn put_variable(to: &mut Text, signal: u64, ty: &Ty, name: &[u8])
    requires { IsData ty.now }
    ensures { Writes to.old to.new (variable_line (bit_count ty.now) signal name.now) }
{
    to.put(b"$var wire ");
    to.put_number(bits(ty).into());
    to.put(b" ");
    put_code(to, signal);
    to.put(b" ");
    to.put(name);
    to.put(b" $end\n");
}
