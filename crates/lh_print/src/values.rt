//! Constants and times.
#![tactic(auto, using(crate::proofs::Joined::steps))]

ghost use Rattle.std.specs.Prelude.{◌≡◌, ◌++◌, ◌∷◌, [], decimal};
ghost use Rattle.lh_text_buffer.specs.Writing.{Writes};
ghost use Rattle.lh_types.specs.ValueOf.{datum_of};
ghost use Rattle.lh_unit.specs.Pieces.{render};
ghost use Rattle.lh_unit.specs.CanonTypes.{time_text, steps_pieces, time_pieces, const_pieces};

use lh_text_buffer::Text;
use lh_types::val::Val;

/// Writes a number and the word that follows it directly.
fn put_count(out: &mut Text, n: u64, unit: &[u8])
    ensures { Writes out.old out.new (decimal n ++ unit.now) }
{
    out.put_number(n);
    out.put(unit);
}

/// Writes a number of femtoseconds in the largest unit in which it is whole.
fn put_femtoseconds(out: &mut Text, fs: u64)
    ensures { Writes out.old out.new (time_text fs) }
{
    if fs % 1_000_000_000_000_000 == 0 {
        put_count(out, fs / 1_000_000_000_000_000, b"s");
    } else if fs % 1_000_000_000_000 == 0 {
        put_count(out, fs / 1_000_000_000_000, b"ms");
    } else if fs % 1_000_000_000 == 0 {
        put_count(out, fs / 1_000_000_000, b"us");
    } else if fs % 1_000_000 == 0 {
        put_count(out, fs / 1_000_000, b"ns");
    } else if fs % 1_000 == 0 {
        put_count(out, fs / 1_000, b"ps");
    } else {
        put_count(out, fs, b"fs");
    }
}

/// Writes a count of steps behind a time, where it is above 0.
fn put_steps(out: &mut Text, n: u64, letter: u8)
    ensures { Writes out.old out.new (render (steps_pieces n letter)) }
{
    if n == 0 {
        return;
    }
    out.put(b" ");
    put_count(out, n, &[letter]);
}

/// Writes a time.
fn put_time(out: &mut Text, fs: u64, delta: u64, eps: u64)
    ensures { Writes out.old out.new (render (time_pieces fs delta eps)) }
{
    put_femtoseconds(out, fs);
    put_steps(out, delta, b'd');
    put_steps(out, eps, b'e');
}

/// Writes a constant. One of an array or a struct has no spelling, and is the bare word `const`.
pub fn put_const(out: &mut Text, value: &Val)
    ensures { Writes out.old out.new (render (const_pieces (datum_of value.now))) }
{
    match value {
        Val::Int { width, bits } => {
            out.put(b"const i");
            out.put_number(u64::from(*width));
            out.put(b" ");
            out.put_integer(*bits);
        }
        Val::Time(d) => {
            out.put(b"const time ");
            put_time(out, d.fs, d.delta, d.eps);
        }
        Val::Array(_) | Val::Tuple(_) => out.put(b"const"),
    }
}
