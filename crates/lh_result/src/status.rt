//! How a run ends: its statuses, their codes, and the line of each.
ghost use Rattle.std.specs.Prelude.{◌≡◌, ◌≤◌, ◌∷◌, ◌++◌, codes, decimal};
ghost use Rattle.lh_result.specs.StatusLines.{name_of_fault, unit_word, invalid_line, refusal_line, top_line, status_line, status_code};
ghost use Rattle.lh_result.specs.Account.{use_of, Puts};
ghost use Rattle.lh_result.specs.Steps.{source_status, text_status, wave_status};
ghost use Rattle.lh_result.specs.declared.status.Status.TheVariants.{WriteFault, OutOfMemory};

use itoa::Buffer;
use lh_io::stream::{Failed, Sink};
use lh_io::whole::{ReadAllFault, write_all};
use lh_read::TextFault;
use lh_types::memory::NoMemory;
use lh_unit_names::name::UnitName;
use lh_wave::run::WaveFault;

const USAGE: &[u8] =
    b"usage: llhd check | lower | simulate --top NAME --steps N [--vcd] [--watch TITLE ...] | selftest N\n";

/// Why a file is refused. Lines, and the instructions of a unit, are counted from 1.
#[derive(Debug, Drop, PartialEq, Eq)]
pub enum Refusal {
    /// The line spells nothing in its place.
    Syntax(u32),
    /// The line is the 65,537th instruction of its unit.
    UnitTooLarge(u32),
    /// The line defines a name that is defined already, or a unit `@llhd.assert`.
    DuplicateName(u32),
    /// The instruction is the first faulty one, and this is the number of its lowest fault.
    Invalid {
        unit: UnitName,
        inst: u32,
        number: u8,
    },
}

/// Why a top unit is not simulated.
#[derive(Debug, Drop, PartialEq, Eq)]
pub enum TopFault {
    /// No defined unit has the name.
    TopMissing,
    /// The unit is a function.
    TopIsFunction,
    /// This unit is instantiated in itself, and is the first, depth first, at which that shows.
    InstCycle(UnitName),
    /// More than 64 instances nest, the top counted.
    TooDeep,
    /// There are more than 65,536 instances.
    TooManyInstances,
    /// The signals have more than 16,777,216 bits.
    TooManyBits,
}

/// How a run ends.
#[derive(Debug, Drop, PartialEq, Eq)]
pub enum Status {
    /// The words have no form, or watch a title that no watcher has.
    Usage,
    /// A read of the source failed.
    ReadFault,
    /// More than 67,108,864 bytes came.
    SourceTooLong,
    /// The file has a fault.
    Refused(Refusal),
    /// The top unit is not simulated.
    Top(TopFault),
    /// The text of the lowered module has more than 67,108,864 bytes.
    OutputTooLong,
    /// A write failed before the status line.
    WriteFault,
    /// The simulation ended since this instance ran away.
    Runaway(u32),
    /// An assertion failed in a frame that was shown.
    AssertFailed,
    /// The command was carried out.
    Done,
    /// Memory ran out.
    OutOfMemory,
}

impl From<ReadAllFault> for Status {
    ghost from_gives = { λ fault status. status ≡ source_status fault };

    fn from(fault: ReadAllFault) -> Status {
        match fault {
            ReadAllFault::ReadFault => Status::ReadFault,
            ReadAllFault::TooLong => Status::SourceTooLong,
            ReadAllFault::OutOfMemory => Status::OutOfMemory,
        }
    }
}

impl From<TextFault> for Status {
    ghost from_gives = { λ fault status. status ≡ text_status fault };

    fn from(fault: TextFault) -> Status {
        match fault {
            TextFault::Syntax(line) => Status::Refused(Refusal::Syntax(line)),
            TextFault::UnitTooLarge(line) => Status::Refused(Refusal::UnitTooLarge(line)),
            TextFault::DuplicateName(line) => Status::Refused(Refusal::DuplicateName(line)),
            TextFault::OutOfMemory => Status::OutOfMemory,
        }
    }
}

impl From<WaveFault> for Status {
    ghost from_gives = { λ fault status. status ≡ wave_status fault };

    fn from(fault: WaveFault) -> Status {
        match fault {
            WaveFault::WriteFault => Status::WriteFault,
            WaveFault::OutOfMemory => Status::OutOfMemory,
        }
    }
}

impl From<NoMemory> for Status {
    ghost from_gives = { λ _ status. status ≡ OutOfMemory };

    fn from(_fault: NoMemory) -> Status {
        Status::OutOfMemory
    }
}

impl From<Failed> for Status {
    ghost from_gives = { λ _ status. status ≡ WriteFault };

    fn from(_fault: Failed) -> Status {
        Status::WriteFault
    }
}

// Writes three texts, one behind the other.
fn write_three<L: Sink>(
    log: &mut L,
    first: &[u8],
    second: &[u8],
    third: &[u8],
) -> Result<(), Failed>
    ensures puts { Puts result (use_of (L.written log.old) (L.written log.new) (L.faults log.old) (L.faults log.new)) (first.now ++ second.now ++ third.now) }
    ensures never_fall { L.faults log.old ≤ L.faults log.new }
{
    write_all(log, first)?;
    write_all(log, second)?;
    write_all(log, third)
}

// Writes a number between two texts.
fn write_number<L: Sink>(
    log: &mut L,
    before: &[u8],
    number: u32,
    behind: &[u8],
) -> Result<(), Failed>
    ensures puts { Puts result (use_of (L.written log.old) (L.written log.new) (L.faults log.old) (L.faults log.new)) (before.now ++ decimal number ++ behind.now) }
    ensures never_fall { L.faults log.old ≤ L.faults log.new }
{
    let mut digits = Buffer::new();
    write_three(log, before, digits.format(number).as_bytes(), behind)
}

// Writes the name of a unit behind a text.
fn write_unit<L: Sink>(log: &mut L, before: &[u8], unit: &UnitName) -> Result<(), Failed>
    ensures puts { Puts result (use_of (L.written log.old) (L.written log.new) (L.faults log.old) (L.faults log.new)) (before.now ++ unit_word unit.now) }
    ensures never_fall { L.faults log.old ≤ L.faults log.new }
{
    let sigil = [unit.sigil];
    write_three(log, before, &sigil, unit.name.as_bytes())
}

// The name of a fault by its number, which ends the line.
fn fault_name(number: u8) -> &'static [u8]
    ensures { result.now ≡ name_of_fault number }
{
    match number {
        1 => b" Undefined\n",
        2 => b" WrongKind\n",
        3 => b" WrongType\n",
        4 => b" NotHere\n",
        5 => b" NoTerminator\n",
        6 => b" PhiEdges\n",
        7 => b" NotDefined\n",
        _ => b" Arguments\n",
    }
}

// Writes the status line of a faulty instruction.
fn write_inst_fault<L: Sink>(
    log: &mut L,
    unit: &UnitName,
    inst: u32,
    number: u8,
) -> Result<(), Failed>
    ensures puts { Puts result (use_of (L.written log.old) (L.written log.new) (L.faults log.old) (L.faults log.new)) (invalid_line unit.now inst number) }
    ensures never_fall { L.faults log.old ≤ L.faults log.new }
{
    write_unit(log, b"unit ", unit)?;
    write_number(log, b" instruction ", inst, b": ")?;
    write_number(log, b"", number as u32, fault_name(number))
}

impl Refusal {
    /// Writes the status line of a refusal.
    fn write_line<L: Sink>(&self, log: &mut L) -> Result<(), Failed>
        ensures puts { Puts result (use_of (L.written log.old) (L.written log.new) (L.faults log.old) (L.faults log.new)) (refusal_line self.now) }
        ensures never_fall { L.faults log.old ≤ L.faults log.new }
    {
        match self {
            Refusal::Syntax(line) => write_number(log, b"line ", *line, b": syntax\n"),
            Refusal::UnitTooLarge(line) => write_number(
                log,
                b"line ",
                *line,
                b": unit too large\n",
            ),
            Refusal::DuplicateName(line) => write_number(
                log,
                b"line ",
                *line,
                b": duplicate name\n",
            ),
            Refusal::Invalid { unit, inst, number } => write_inst_fault(log, unit, *inst, *number),
        }
    }
}

// Writes the line of a unit that is instantiated in itself.
fn write_cycle<L: Sink>(log: &mut L, unit: &UnitName) -> Result<(), Failed>
    ensures puts { Puts result (use_of (L.written log.old) (L.written log.new) (L.faults log.old) (L.faults log.new)) ((codes "top: InstCycle " ++ unit_word unit.now) ++ codes "\n") }
    ensures never_fall { L.faults log.old ≤ L.faults log.new }
{
    write_unit(log, b"top: InstCycle ", unit)?;
    write_all(log, b"\n")
}

impl TopFault {
    /// Writes the status line of a top that is not simulated.
    fn write_line<L: Sink>(&self, log: &mut L) -> Result<(), Failed>
        ensures puts { Puts result (use_of (L.written log.old) (L.written log.new) (L.faults log.old) (L.faults log.new)) (top_line self.now) }
        ensures never_fall { L.faults log.old ≤ L.faults log.new }
    {
        match self {
            TopFault::TopMissing => write_all(log, b"top: TopMissing\n"),
            TopFault::TopIsFunction => write_all(log, b"top: TopIsFunction\n"),
            TopFault::InstCycle(unit) => write_cycle(log, unit),
            TopFault::TooDeep => write_all(log, b"top: TooDeep\n"),
            TopFault::TooManyInstances => write_all(log, b"top: TooManyInstances\n"),
            TopFault::TooManyBits => write_all(log, b"top: TooManyBits\n"),
        }
    }
}

impl Status {
    /// The exit code of the program.
    pub fn code(&self) -> u8
        ensures { result ≡ status_code self.now }
    {
        match self {
            Status::Done => 0,
            Status::Refused(_) => 1,
            Status::Usage => 2,
            Status::ReadFault => 3,
            Status::WriteFault => 4,
            Status::OutOfMemory => 5,
            Status::SourceTooLong => 6,
            Status::Top(_) => 8,
            Status::OutputTooLong => 7,
            Status::AssertFailed => 9,
            Status::Runaway(_) => 10,
        }
    }

    /// Writes the status line, without memory. `Done` has none.
    pub fn write_line<L: Sink>(&self, log: &mut L) -> Result<(), Failed>
        ensures puts { Puts result (use_of (L.written log.old) (L.written log.new) (L.faults log.old) (L.faults log.new)) (status_line self.now) }
        ensures never_fall { L.faults log.old ≤ L.faults log.new }
    {
        match self {
            Status::Usage => write_all(log, USAGE),
            Status::ReadFault => write_all(log, b"read fault\n"),
            Status::SourceTooLong => write_all(log, b"source too long\n"),
            Status::Refused(why) => why.write_line(log),
            Status::Top(why) => why.write_line(log),
            Status::WriteFault => write_all(log, b"write fault\n"),
            Status::Runaway(instance) => write_number(
                log,
                b"runaway in instance ",
                *instance,
                b"\n",
            ),
            Status::OutputTooLong => write_all(log, b"output too long\n"),
            Status::AssertFailed => write_all(log, b"assertion failed\n"),
            Status::Done => Ok(()),
            Status::OutOfMemory => write_all(log, b"out of memory\n"),
        }
    }
}
