//! Tests of what no run of the program shows: instants, buckets of a queue, streams of the system, tokens, words of a command line, codes of many signals,
//! the text of a self-test, and that what is printed reads again.
#![tactic(auto)]

pub mod instants;
#[cfg(test)]
mod tests;
