//! Values as a trace shows them.
ghost use Rattle.std.specs.Prelude.{◌≡◌, ◌++◌, [], codes, nat_eq, if◌then◌else◌};
ghost use Rattle.lh_text_buffer.specs.Writing.{Writes};
ghost use Rattle.lh_types.specs.Values.{data_row};
ghost use Rattle.lh_types.specs.ValueOf.{datum_of};
ghost use Rattle.lh_wave.specs.ValueText.{moment_text, value_text, values_text};

use lh_text_buffer::Text;
use lh_types::val::{Val, ValList};

/// Puts a value at the end of a text: an integer in decimal, an array as `[1, 2]`, a struct as `{1, 2}`.
#[cycle(value)]
pub fn put_value(to: &mut Text, v: &Val)
    ensures { Writes to.old to.new (value_text (datum_of v.now)) }
{
    match v {
        Val::Int { width: _, bits } => to.put_integer(*bits),
        Val::Time(d) => put_moment(to, d.fs, d.delta, d.eps),
        Val::Array(vs) => put_between(to, b"[", vs, b"]"),
        Val::Tuple(vs) => put_between(to, b"{", vs, b"}"),
    }
}

// Puts values between brackets.
#[cycle(value)]
fn put_between(to: &mut Text, left: &[u8], vs: &ValList, right: &[u8])
    ensures { Writes to.old to.new (left.now ++ values_text (data_row vs.now) ++ right.now) }
{
    to.put(left);
    put_values(to, vs);
    to.put(right);
}

// Puts values between commas.
#[cycle(value)]
fn put_values(to: &mut Text, vs: &ValList)
    ensures { Writes to.old to.new (values_text (data_row vs.now)) }
{
    for (i, v) in vs.as_slice().iter().enumerate() {
        to.put(comma_before(i));
        put_value(to, v);
    }
}

// What stands before the value at a place.
fn comma_before(i: usize) -> &'static [u8]
    ensures { result.now ≡ (if nat_eq i 0 then [] else codes ", ") }
{
    if i == 0 { b"" } else { b", " }
}

/// Puts femtoseconds, deltas and epsilons at the end of a text, as `5fs 1d 0e`.
pub fn put_moment(to: &mut Text, fs: u64, delta: u64, eps: u64)
    ensures { Writes to.old to.new (moment_text fs delta eps) }
{
    to.put_number(fs);
    to.put(b"fs ");
    to.put_number(delta);
    to.put(b"d ");
    to.put_number(eps);
    to.put(b"e");
}
