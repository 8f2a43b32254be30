//! The reasons why a process stays.
ghost use Rattle.lh_shape.specs.Names.{reason_word};
ghost use Rattle.std.specs.Prelude.{◌≡◌};

/// Why a process stays: the first that holds, in this order.
#[derive(Clone, Copy, Debug, PartialEq, Eq)]
pub enum Reason {
    /// A function calls itself.
    RecursiveCall,
    /// More than 64 calls nest.
    CallTooDeep,
    /// The flat text has more than 65,536 instructions.
    FlatTooLarge,
    /// The head begins with a `phi`.
    HeadPhi,
    /// A region has more than 256 turns.
    TooManyTurns,
    /// The places of a region have more than 65,536 instructions.
    RegionTooLarge,
    /// A region ends at `halt`.
    Halts,
    /// A region has an assertion.
    Asserts,
    /// The first region ends at a `wait` with a time.
    TimedWait,
    /// The ends of the first region differ in where they lead or in the bits that they wait on.
    MixedWaits,
    /// The first region leads to the head and probes a bit that it does not wait on.
    NotSensitive,
    /// The delay of a drive is no constant.
    DelayNotConstant,
    /// The first region leads elsewhere than to the head, and drives.
    DrivesBeforeWait,
    /// The second region ends at a `wait`.
    WaitsTwice,
    /// What the second region drives has a value before in it.
    PastValueDriven,
    /// The edge part of a condition has more than twelve atoms.
    TooManyAtoms,
    /// A condition of the second region is not edge-shown.
    NoEdge,
    /// The entity has more than 65,536 instructions, or a choice of it wants an array that is no type.
    EntityTooLarge,
}

impl Reason {
    /// The word by which a report names the reason.
    pub fn word(self) -> &'static [u8]
        ensures { result.now ≡ reason_word self }
    {
        match self {
            Reason::RecursiveCall => b"RecursiveCall",
            Reason::CallTooDeep => b"CallTooDeep",
            Reason::FlatTooLarge => b"FlatTooLarge",
            Reason::HeadPhi => b"HeadPhi",
            Reason::TooManyTurns => b"TooManyTurns",
            Reason::RegionTooLarge => b"RegionTooLarge",
            Reason::Halts => b"Halts",
            Reason::Asserts => b"Asserts",
            Reason::TimedWait => b"TimedWait",
            Reason::MixedWaits => b"MixedWaits",
            Reason::NotSensitive => b"NotSensitive",
            Reason::DelayNotConstant => b"DelayNotConstant",
            Reason::DrivesBeforeWait => b"DrivesBeforeWait",
            Reason::WaitsTwice => b"WaitsTwice",
            Reason::PastValueDriven => b"PastValueDriven",
            Reason::TooManyAtoms => b"TooManyAtoms",
            Reason::NoEdge => b"NoEdge",
            Reason::EntityTooLarge => b"EntityTooLarge",
        }
    }
}
