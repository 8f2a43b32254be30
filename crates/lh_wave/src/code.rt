//! The identifier codes of signals.
ghost use Rattle.std.specs.Prelude.{◌<◌, ◌+◌, ◌∷◌, []};
ghost use Rattle.lh_text_buffer.specs.Writing.{Writes};
ghost use Rattle.lh_wave.specs.WaveText.{identifier_code};

use lh_text_buffer::Text;

// How many bytes a code is made of, from the first one on.
const BASE: u64 = 94;

const FIRST: u8 = b'!';

/// Puts the identifier code of a signal at the end of a text.
pub fn put_code(to: &mut Text, signal: u64)
    ensures { Writes to.old to.new (identifier_code signal) }
{
    let mut rest = signal;
    while rest >= BASE {
        put_digit(to, (rest % BASE) as u8);
        rest /= BASE;
    }
    put_digit(to, rest as u8);
}

// Puts one digit of a code.
fn put_digit(to: &mut Text, digit: u8)
    requires { digit < 94 }
    ensures { Writes to.old to.new ((33 + digit) ∷ []) }
{
    to.put_byte(FIRST + digit);
}
