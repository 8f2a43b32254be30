//! A number of the command line.
ghost use Rattle.std.specs.Prelude.{◌≡◌, ℕ, ◌≤◌, ◌<◌, IfSome, IfNone, length};
ghost use Rattle.lh_args.specs.Forms.{IsCount};
ghost use Rattle.lh_unit.specs.Numerals.{number_of};

// The most digits that a number has.
const MOST_DIGITS: usize = 7;

/// The number that a word says: 1 to 7 decimal digits, and from 1 to the most.
pub fn count_of(word: &[u8], most: u32) -> Option<u32>
    ensures some { IfSome result (IsCount most word.now) }
    ensures none { IfNone result ((n : ℕ) → IsCount most word.now n → ⊥) }
{
    if word.is_empty() || word.len() > MOST_DIGITS {
        return None;
    }
    let n = number(word)?;
    if n == 0 || n > most {
        return None;
    }
    Some(n)
}

// The number that some decimal digits say.
fn number(word: &[u8]) -> Option<u32>
    requires some { 0 < length word.now }
    requires few { length word.now ≤ 7 }
    ensures { result ≡ number_of word.now }
{
    let mut n: u32 = 0;
    for b in word {
        if *b < b'0' {
            return None;
        }
        if *b > b'9' {
            return None;
        }
        n = n * 10 + (b - b'0') as u32;
    }
    Some(n)
}
