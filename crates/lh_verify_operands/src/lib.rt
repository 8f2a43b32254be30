//! What an instruction names: its operands, of which kind each must be, and the blocks to which it may lead.
#![tactic(auto)]

pub mod successors;
pub mod uses;
