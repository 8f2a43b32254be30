//! The binary digits of numbers, four at a time.
ghost use Rattle.std.specs.Prelude.{◌≡◌, ◌<◌, ◌≤◌, ◌+◌, ◌-◌, ◌++◌, drop};
ghost use Rattle.lh_types.specs.Bits.{number_bits};
ghost use Rattle.lh_wave.specs.WaveText.{bits_text};

// The digits of four bits by their number, highest first.
static NIBBLES: [[u8; 4]; 16] = [
    *b"0000", *b"0001", *b"0010", *b"0011", *b"0100", *b"0101", *b"0110", *b"0111", *b"1000",
    *b"1001", *b"1010", *b"1011", *b"1100", *b"1101", *b"1110", *b"1111",
];

/// The lowest `width` bits of a number, highest first, in the last places.
pub(crate) fn digits_of(width: u32, number: u128) -> [u8; 128]
    requires { width ≤ 128 }
    ensures { drop (128 - width) result ≡ bits_text (number_bits width number) }
{
    let mut digits = [b'0'; 128];
    let mut rest = number;
    for i in 0..(width as usize).div_ceil(4) {
        put_nibble(&mut digits, 124 - 4 * i, (rest % 16) as usize);
        rest /= 16;
    }
    digits
}

// Puts the digits of four bits at a place.
fn put_nibble(digits: &mut [u8; 128], at: usize, bits: usize)
    requires within { at ≤ 124 }
    requires four { bits < 16 }
    ensures { drop at digits.new ≡ bits_text (number_bits 4 bits) ++ drop (at + 4) digits.old }
{
    let [first, second, third, fourth] = NIBBLES[bits];
    digits[at + 3] = fourth;
    digits[at + 2] = third;
    digits[at + 1] = second;
    digits[at] = first;
}
