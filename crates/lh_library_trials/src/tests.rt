//! The tests by crates: the first word of a module is the name of the crate that it tries.

mod again_printed;
mod generator_chain;
mod io_whole;
mod lex_tokens;
mod queue_buckets;
mod time_due;
mod wave_lines;
mod words_commands;
