//! Laws of the lowered module of a well-formed module, each the contract of a function that does nothing.
ghost use Rattle.lh_lower_laws.specs.Delays.{DelaysAreWritable};
ghost use Rattle.lh_lower_laws.specs.One.{OneReplacedSameTrace};
ghost use Rattle.lh_lower_laws.specs.Same.{LargeIsEnough, LoweredIsFaultless, LoweredIsPrintable, LoweredIsSpelled, LoweredIsWellFormed, LoweredSameTrace, LoweredSameTraceWithin};

use lh_emit_def::laws::{comb_law, edge_law, once_law, printing_law};
use lh_entity_laws::given::{comb_given, edge_given, once_given};
use lh_entity_laws::laws::{lowered_stands, max_is_enough};
use lh_flat_state_laws::formed_law;
use lh_lower_def::laws::lowering_law;
use lh_text_laws::{modules_are_spelled_by_items, printable_items_are_spelled};
use lh_trace_laws::replaced_law;

/// The lowered module has the same trace, for every top unit and every number of frames: with the language's bound on the instructions of an
/// activation, and with any other that is enough for the entry and two regions of each process.
pub fn same_trace_law()
    ensures same { LoweredSameTrace }
    ensures within { LoweredSameTraceWithin }
    ensures large { LargeIsEnough }
{
    lowered_stands();
    max_is_enough();
    replaced_law();
}

/// Whatever one process of a well-formed module is replaced by the entity of its shape, the module has the same trace, for every top unit and
/// every number of frames.
pub fn one_replaced_law()
    ensures { OneReplacedSameTrace }
{
    lowered_stands();
    max_is_enough();
    replaced_law();
}

/// The lowered module is well formed: its canonical text reads as it, and none of its instructions has a fault.
pub fn well_formed_law()
    ensures { LoweredIsWellFormed }
{
    spelled_law();
    faultless_law();
}

/// Each item of the lowered module can be printed, so its canonical text reads as it.
pub fn spelled_law()
    ensures printable { LoweredIsPrintable }
    ensures spelled { LoweredIsSpelled }
{
    delays_law();
    printing_law();
    modules_are_spelled_by_items();
    printable_items_are_spelled();
    formed_law();
    comb_given();
    edge_given();
    once_given();
}

/// No instruction of the lowered module has a fault: none of an entity, whatever else stands in the module, and none of a unit that stays,
/// since what it names is there with the same arguments.
pub fn faultless_law()
    ensures { LoweredIsFaultless }
{
    modules_are_spelled_by_items();
    printable_items_are_spelled();
    lowering_law();
    formed_law();
    comb_given();
    edge_given();
    once_given();
    comb_law();
    edge_law();
    once_law();
}

/// The delays of the shape of each process can be written: they are constants of the process, or of functions that it calls.
pub fn delays_law()
    ensures { DelaysAreWritable }
{
    modules_are_spelled_by_items();
    printable_items_are_spelled();
    formed_law();
}
