//! A flow: blocks by numbers from 0, each with the blocks to which it leads and the values that it gives.

use lh_types::list::ListOf;

/// A block of a flow, which is entered at its start and left at its end. A flow is a slice of blocks; it starts at block 0.
#[derive(Drop)]
pub struct Block {
    /// The numbers of the blocks to which it leads, in any order.
    pub leads: ListOf<u32>,
    /// The numbers of the values that it gives, in any order.
    pub gives: ListOf<u32>,
}
