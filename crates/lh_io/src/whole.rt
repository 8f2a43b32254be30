//! Reading a source to its end, and writing a whole text.
ghost use Rattle.std.specs.Prelude.{◌≡◌, ◌≤◌, ◌<◌, ◌+◌, ◌^◌, ◌++◌, ℕ, [], Some, IfOk, OnOk, IfErr, OnErr, IfSome, IsErrOf, vec_len};
ghost use Rattle.lh_io.specs.Streams.{Rose, Appends, AppendsProperPrefix};
ghost use Rattle.lh_io.specs.Whole.{IsCountWithin, TakesBytes};

use crate::stream::{Failed, Sink, Source};
use std::alloc::Global;
use thiserror::Error;

/// Writes the whole text, in as many writes as the sink needs, without memory.
///
/// After `Failed` a proper prefix of the text was written, and the sink's count of faults rose.
pub fn write_all<K: Sink>(sink: &mut K, text: &[u8]) -> Result<(), Failed>
    ensures ok { OnOk result (Appends (K.written sink.old) (K.written sink.new) text.now) }
    ensures failed { OnErr result (AppendsProperPrefix (K.written sink.old) (K.written sink.new) text.now) }
    ensures rose { OnErr result (Rose (K.faults sink.old) (K.faults sink.new)) }
    ensures never_fall { K.faults sink.old ≤ K.faults sink.new }
{
    let mut rest = text;
    while !rest.is_empty() {
        let n = sink.write(rest)?;
        rest = &rest[n..];
    }
    Ok(())
}

/// Why a source was not read to its end.
#[derive(Clone, Copy, Debug, PartialEq, Eq, Error)]
pub enum ReadAllFault {
    /// A read failed; the source's count of faults rose.
    #[error("a read failed")]
    ReadFault,
    /// One byte more than the limit came.
    #[error("more bytes came than the limit")]
    TooLong,
    /// Memory ran out.
    #[error("out of memory")]
    OutOfMemory,
}

/// How many bytes are asked for at once: what a pipe holds.
const PIECE: usize = 65536;

/// All the bytes that are left in the source, in order, where they are at most `limit`.
///
/// It takes no byte after the first beyond the limit. After each fault the bytes that it took are gone.
pub fn read_all<S: Source>(
    alloc: Global,
    src: &mut S,
    limit: usize,
) -> Result<Vec<u8>, ReadAllFault>
    requires { limit < 2 ^ 32 }
    ensures whole { IfOk result (λ v. IfSome (S.left src.old) (λ was. (v.items ≡ was) × (S.left src.new ≡ Some []))) }
    ensures count { IfOk result (λ v. (vec_len v ≤ limit) × TakesBytes (S.left src.old) (S.left src.new) (S.taken src.old) (S.taken src.new) (vec_len v)) }
    ensures fault_count { IfErr result (λ e. (n : ℕ) × IsCountWithin e limit n × TakesBytes (S.left src.old) (S.left src.new) (S.taken src.old) (S.taken src.new) n) }
    ensures rose { IsErrOf result ReadAllFault.ReadFault → Rose (S.faults src.old) (S.faults src.new) }
    ensures never_fall { S.faults src.old ≤ S.faults src.new }
{
    let mut bytes = Vec::new(alloc);
    let mut room = [0u8; PIECE];
    'turns: loop {
        let want = (limit + 1 - bytes.len()).min(PIECE);
        let n = match src.read(&mut room[..want]) {
            Ok(n) => n,
            Err(_) => return Err(ReadAllFault::ReadFault),
        };
        if n == 0 {
            return Ok(bytes);
        }
        if bytes.len() + n > limit {
            return Err(ReadAllFault::TooLong);
        }
        if bytes.extend_from_slice(&room[..n]).is_err() {
            return Err(ReadAllFault::OutOfMemory);
        }
    }
}
