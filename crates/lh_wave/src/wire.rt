//! Values and times of a waveform.
ghost use Rattle.std.specs.Prelude.{◌≢◌, ◌≤◌, ◌≡◌, ◌∷◌, [], map};
ghost use Rattle.lh_text_buffer.specs.Writing.{Writes};
ghost use Rattle.lh_types.specs.Values.{data_row};
ghost use Rattle.lh_types.specs.ValueOf.{datum_of};
ghost use Rattle.lh_types.specs.Bits.{value_bits, row_bits, number_bits};
ghost use Rattle.lh_wave.specs.WaveText.{bit_byte, marked_bits, value_line, time_line};

use crate::code::put_code;
use crate::digits::digits_of;
use lh_text_buffer::Text;
use lh_types::val::{Val, ValList};

/// Puts the line of a signal's value at the end of a text: of one bit that bit, of more a `b`, all bits,
/// highest first, and a space; then its code.
pub fn put_wire(to: &mut Text, signal: u64, v: &Val)
    ensures { Writes to.old to.new (value_line signal (datum_of v.now)) }
{
    put_bits(to, v);
    put_code(to, signal);
    to.put(b"\n");
}

// Puts the bits of a value, between a `b` and a space where they are not one.
fn put_bits(to: &mut Text, v: &Val)
    ensures { Writes to.old to.new (marked_bits (value_bits (datum_of v.now))) }
{
    match v {
        Val::Int { width: 1, bits } => put_bit(to, bits % 2 == 1),
        Val::Int { width, bits } if *width <= 128 => put_vector(to, *width, *bits),
        _ => put_parts(to, v),
    }
}

// Puts the lowest `width` bits of a number, highest first, between a `b` and a space.
fn put_vector(to: &mut Text, width: u32, number: u128)
    requires narrow { width ≤ 128 }
    requires many { width ≢ 1 }
    ensures { Writes to.old to.new (marked_bits (number_bits width number)) }
{
    let digits = digits_of(width, number);
    to.put(b"b");
    to.put(&digits[128 - width as usize..]);
    to.put(b" ");
}

// Puts the bits of a value of parts: first lowest first, and where they are not one, the `b` behind them; then all turned round.
fn put_parts(to: &mut Text, v: &Val)
    ensures { Writes to.old to.new (marked_bits (value_bits (datum_of v.now))) }
{
    let start = to.len();
    put_value_bits(to, v);
    if to.len().saturating_sub(start) == 1 {
        return;
    }
    to.put(b"b");
    to.reverse_from(start);
    to.put(b" ");
}

// Puts all bits of a value, lowest first.
#[cycle(wire)]
fn put_value_bits(to: &mut Text, v: &Val)
    ensures { Writes to.old to.new (map bit_byte (value_bits (datum_of v.now))) }
{
    match v {
        Val::Int { width, bits } => put_number_bits(to, *width, *bits),
        Val::Time(_) => {}
        Val::Array(vs) | Val::Tuple(vs) => put_row_bits(to, vs),
    }
}

// Puts all bits of values in a row, lowest first.
#[cycle(wire)]
fn put_row_bits(to: &mut Text, vs: &ValList)
    ensures { Writes to.old to.new (map bit_byte (row_bits (data_row vs.now))) }
{
    for v in vs.as_slice() {
        put_value_bits(to, v);
    }
}

// Puts the lowest `width` bits of a number, lowest first.
fn put_number_bits(to: &mut Text, width: u32, number: u128)
    ensures { Writes to.old to.new (map bit_byte (number_bits width number)) }
{
    let mut rest = number;
    for _bit in 0..width {
        put_bit(to, rest % 2 == 1);
        rest /= 2;
    }
}

fn put_bit(to: &mut Text, bit: bool)
    ensures { Writes to.old to.new (bit_byte bit ∷ []) }
{
    to.put_byte(bit_digit(bit));
}

fn bit_digit(bit: bool) -> u8
    ensures { result ≡ bit_byte bit }
{
    b'0' + u8::from(bit)
}

/// Puts the line of a time, in femtoseconds, at the end of a text.
pub fn put_time(to: &mut Text, fs: u64)
    ensures { Writes to.old to.new (time_line fs) }
{
    to.put(b"#");
    to.put_number(fs);
    to.put(b"\n");
}
