//! The law of lowered modules, the contract of a function that does nothing.
ghost use Rattle.lh_cert_lowered.specs.Laws.{LoweredIsCertified};

use lh_cert_emitted::laws::emitted_say_rows;
use lh_entity_laws::given::{comb_given, edge_given, once_given};
use lh_flat_state_laws::formed_law;

/// A well-formed module and what lowering makes of it have no cause for which the second could not stand in the place of the first.
pub fn lowered_is_certified()
    ensures { LoweredIsCertified }
{
    formed_law();
    comb_given();
    edge_given();
    once_given();
    emitted_say_rows();
}
