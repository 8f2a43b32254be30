//! The result of a run: its definition by the words, the bytes and the watchers, and the line of each status. Beside
//! them stand what the words call for, the loading of a file, and the writing of two texts.
#![tactic(auto)]

pub mod called;
pub mod load;
pub mod status;
pub mod texts;
