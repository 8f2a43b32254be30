//! Lists of bits, packed in words: the bits of a value and of its parts, and bits that are to be written.
#![tactic(auto)]

pub mod bit_run;
pub mod bits;
pub mod laws;
pub mod layout;
pub mod mostly_one;
mod run;
mod word;
pub mod writes;
