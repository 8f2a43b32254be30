//! A design: the instances and the signals of a top unit by their numbers, and the bits that the signals begin with.
#![tactic(auto)]

ghost use Rattle.std.specs.Prelude.{◌≡◌};

use lh_bits::bits::Bits;
use lh_eval::instance::Instance;
use lh_types::ty::Ty;
use lh_unit_names::name::Name;

/// A signal of a design.
#[derive(Drop)]
pub struct Signal {
    /// The number of the instance to which it belongs.
    pub instance: u32,
    /// Its name: that of the top's argument or of the `sig` instruction's result.
    pub name: Name,
    /// The type that it carries.
    pub ty: Ty,
    /// Its lowest bit.
    pub lo: u32,
}

/// The instances and signals of a top unit by their numbers, and the bits that the signals begin with.
#[derive(Drop)]
pub struct Design {
    instances: Vec<Instance>,
    signals: Vec<Signal>,
    init: Bits,
}

impl Design {
    /// The design of these parts, without memory.
    pub fn new(instances: Vec<Instance>, signals: Vec<Signal>, init: Bits) -> Design
        ensures instances { result.instances ≡ instances }
        ensures signals { result.signals ≡ signals }
        ensures init { result.init ≡ init }
    {
        Design {
            instances,
            signals,
            init,
        }
    }

    /// The instances by their numbers; the top is instance 0.
    pub fn instances(&self) -> &[Instance]
        ensures { result.now ≡ self.now.instances.items }
    {
        self.instances.as_slice()
    }

    /// The signals by their numbers; those of the top's own arguments come first.
    pub fn signals(&self) -> &[Signal]
        ensures { result.now ≡ self.now.signals.items }
    {
        self.signals.as_slice()
    }

    /// The bits that the signals begin with.
    pub fn init(&self) -> &Bits
        ensures { result.now ≡ self.now.init }
    {
        &self.init
    }
}
