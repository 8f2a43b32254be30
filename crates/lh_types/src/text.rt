//! Bytes and numbers at the end of a text.
ghost use Rattle.std.specs.Prelude.{◌≡◌, ◌++◌, OnOk, decimal};

use crate::memory::NoMemory;
use itoa::Buffer;

/// Puts these bytes at the end of a text. After `NoMemory` the text is to be let go: nothing is said of it.
#[inline]
pub fn put(to: &mut Vec<u8>, bytes: &[u8]) -> Result<(), NoMemory>
    ensures { OnOk result (to.new.items ≡ to.old.items ++ bytes.now) }
{
    if bytes.len() > to.capacity() - to.len() {
        return put_beyond(to, bytes);
    }
    to.extend_from_slice(bytes)?;
    Ok(())
}

// The same where there is no room yet; apart, so that a short text that has room is put where the caller stands.
#[inline(never)]
fn put_beyond(to: &mut Vec<u8>, bytes: &[u8]) -> Result<(), NoMemory>
    ensures { OnOk result (to.new.items ≡ to.old.items ++ bytes.now) }
{
    to.extend_from_slice(bytes)?;
    Ok(())
}

/// Puts the decimal digits of a number at the end of a text, without a leading zero. After `NoMemory` nothing is said of the text.
pub fn put_number(to: &mut Vec<u8>, n: u64) -> Result<(), NoMemory>
    ensures { OnOk result (to.new.items ≡ to.old.items ++ decimal n) }
{
    let mut buffer = Buffer::new();
    let digits = buffer.format(n);
    put(to, digits.as_bytes())
}

/// Appends the digits of a number as wide as the widest integer.
pub fn put_integer(to: &mut Vec<u8>, n: u128) -> Result<(), NoMemory>
    ensures { OnOk result (to.new.items ≡ to.old.items ++ decimal n) }
{
    let mut buffer = Buffer::new();
    let digits = buffer.format(n);
    put(to, digits.as_bytes())
}
