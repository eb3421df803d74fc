// What a program that is driven by lines needs, as functions on bytes, with no input or output: lines out of chunks, command words and
// numbers in, decimal numbers and answers out. Each function takes any value of its types.
#![tactic(auto)]

pub mod command;
pub mod format;
pub mod lines;
