//! Files of trials: groups of texts, each with the words by which it is run, and with the answer that it has.
//!
//! `script` has the form of such a file, and `score` what its trials came to. What answers a text is the caller's.
#![tactic(auto)]

mod group;
pub mod score;
pub mod script;
