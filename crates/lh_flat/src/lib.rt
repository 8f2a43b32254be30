//! The flat text of a process: its blocks with every call of a function replaced in place.
#![tactic(auto)]

pub mod build;
pub mod calls;
pub mod copy;
pub mod fault;
pub mod flat;
pub mod flatten;
pub mod laws;
pub mod layout;
pub mod measure;
pub mod named;
pub mod rename;

pub use crate::fault::FlatFault;
pub use crate::flat::{
    Flat, FlatBlock, FlatBlockList, FlatInst, FlatInstList, Merge, MergeEdge, MergeList,
};
pub use crate::flatten::Flattener;
