//! A file from its bytes to a well-formed module.
ghost use Rattle.std.specs.Prelude.{◌≡◌, ℕ, IsErrOf};
ghost use Rattle.lh_io.specs.Streams.{Rose};
ghost use Rattle.lh_io.specs.Whole.{TakesBytes};
ghost use Rattle.lh_unit.specs.Arena.{contents};
ghost use Rattle.lh_verify.specs.Verifying.{HasCause};
ghost use Rattle.lh_result.specs.Account.{OfSource, IsCountFor, IsReadToEnd};
ghost use Rattle.lh_result.specs.Steps.{IsFaultStatus, Loads, ended};

use crate::status::{Refusal, Status};
use lh_io::stream::Source;
use lh_io::whole::read_all;
use lh_read::read;
use lh_types::memory::NoMemory;
use lh_unit::module::Module;
use lh_verify::verify::{Verified, VerifyCause, VerifyFault, verify};
use std::alloc::Global;

/// How many bytes a source may give.
pub const SOURCE_LIMIT: usize = 67_108_864;

/// Reads a source to its end and verifies the file that came.
pub fn load<S: Source>(alloc: Global, src: &mut S) -> Result<Verified, Status>
    ensures loads { OfSource (S.left src.old) (λ bytes. Loads bytes result) }
    ensures came { (n : ℕ) × IsCountFor (ended result) n × TakesBytes (S.left src.old) (S.left src.new) (S.taken src.old) (S.taken src.new) n }
    ensures to_the_end { IsReadToEnd (ended result) (S.left src.old) (S.left src.new) }
    ensures rose { IsErrOf result Status.ReadFault → Rose (S.faults src.old) (S.faults src.new) }
{
    let bytes = read_all(alloc, src, SOURCE_LIMIT)?;
    let module = read(alloc, &bytes)?;
    // The module holds nothing of the text, which may be large.
    drop(bytes);
    match verify(alloc, module) {
        Ok(verified) => Ok(verified),
        Err(fault) => Err(refused(fault)),
    }
}

// The status of a module that is not well formed.
fn refused(fault: VerifyFault) -> Status
    requires { HasCause fault.cause fault.«module» }
    ensures { IsFaultStatus result (contents fault.«module») }
{
    let VerifyFault { module, cause } = fault;
    let status = status_of_cause(&module, cause);
    drop(module);
    status
}

// The status of a module that is not well formed for this cause.
fn status_of_cause(m: &Module, cause: VerifyCause) -> Status
    requires { HasCause cause m.now }
    ensures { IsFaultStatus result (contents m.now) }
{
    match cause {
        VerifyCause::Invalid(first) => match m.unit_name(first.unit).copy() {
            Ok(unit) => Status::Refused(Refusal::Invalid {
                unit,
                inst: first.inst,
                number: first.number,
            }),
            Err(NoMemory) => Status::OutOfMemory,
        },
        VerifyCause::OutOfMemory => Status::OutOfMemory,
    }
}
