//! An entity that does what the rows of a process's shape say, as the emitted one does, may stand for the process, whatever the design. Each
//! law is the contract of a function that does nothing.
ghost use Rattle.lh_entity_laws.specs.Stands.{OnceStands, CombStands, EdgeStands, LoweredStands, MaxIsEnough};
ghost use Rattle.lh_entity_laws.specs.AnyEntity.{OnceStandsFor, CombStandsFor, EdgeStandsFor};

use crate::given::{comb_given, edge_given, once_given};
use lh_flat_state_laws::between::{acts_law, begins_law};
use lh_flat_state_laws::formed_law;
use lh_flat_state_laws::zeros::{activations_law, bits_law, parts_law, ranges_law};
use lh_region_laws::{regions_alike, second_rows_are_typed};
use lh_shape::laws::merged_drives_law;
use lh_term::laws::swaps_keep_meaning;

/// A process that drives once and halts, and any entity whose first pass gives the same and that senses nothing.
pub fn once_stands_for()
    ensures { OnceStandsFor }
{
    begins_law();
    acts_law();
    bits_law();
    parts_law();
    activations_law();
    ranges_law();
    formed_law();
}

/// A combinational process, and any entity that senses what the process waits on, and a pass of which gives on all values what an
/// activation of the process does, from whichever `wait` it begins.
pub fn comb_stands_for()
    ensures { CombStandsFor }
{
    begins_law();
    acts_law();
    bits_law();
    parts_law();
    activations_law();
    ranges_law();
    formed_law();
    merged_drives_law();
}

/// A process that reacts to edges, and any entity that gives what its registers give with the values of the run before and the present
/// ones, and nothing where no part by which they drive has changed. The entity may run more often, and remember more.
pub fn edge_stands_for()
    ensures { EdgeStandsFor }
{
    begins_law();
    acts_law();
    bits_law();
    parts_law();
    activations_law();
    ranges_law();
    formed_law();
    edge_given();
    regions_alike();
    second_rows_are_typed();
    swaps_keep_meaning();
}

/// A process that drives once and halts, and its entity, whose one pass gives the same.
pub fn once_stands()
    ensures { OnceStands }
{
    formed_law();
    once_given();
    once_stands_for();
}

/// A combinational process, and its entity: it senses what the process waits on, and a pass of it gives on all values what an activation of
/// the process does, from whichever `wait` it begins.
pub fn comb_stands()
    ensures { CombStands }
{
    formed_law();
    comb_given();
    comb_stands_for();
}

/// A process that reacts to edges, and its entity: where a trigger's part changes, the registers give what the process gives with the values
/// of its last activation and the present ones, and nothing is given at any other run.
pub fn edge_stands()
    ensures { EdgeStands }
{
    formed_law();
    edge_given();
    edge_stands_for();
}

/// The entity of each process that has one may stand for it.
pub fn lowered_stands()
    ensures { LoweredStands }
{
    once_stands();
    comb_stands();
    edge_stands();
}

/// The entry and two regions of any flat text have no more instructions than an activation may have.
pub fn max_is_enough()
    ensures { MaxIsEnough }
{}
