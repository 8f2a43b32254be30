//! Laws of certifying, each the contract of a function that does nothing.
ghost use Rattle.lh_cert_laws.specs.Certified.{CertifiedSameTrace, CertifiedSameTraceWithin};

use lh_cert_agree::laws::agreed_terms_mean_same;
use lh_cert_rows::laws::passes_do_rows;
use lh_cert_terms::laws::rebuilt_keeps_meaning;
use lh_entity_laws::given::{comb_given, edge_given, once_given};
use lh_entity_laws::laws::{comb_stands_for, edge_stands_for, max_is_enough, once_stands_for};
use lh_flat_state_laws::formed_law;
use lh_shape::laws::merged_drives_law;
use lh_trace_laws::replaced_law;

/// An edited module for which there is no cause has the same trace, for every top unit and every number of frames: with the language's bound
/// on the instructions of an activation, and with any other that is enough for the entry and two regions of each process.
pub fn certified_same_trace()
    ensures same { CertifiedSameTrace }
    ensures within { CertifiedSameTraceWithin }
{
    agreed_terms_mean_same();
    passes_do_rows();
    rebuilt_keeps_meaning();
    merged_drives_law();
    comb_given();
    edge_given();
    once_given();
    formed_law();
    comb_stands_for();
    edge_stands_for();
    once_stands_for();
    max_is_enough();
    replaced_law();
}
