// The functions that C programs link, as include/lurmenize.h declares them. Each tests the flags and choices that it is passed, calls the library's
// function of that name, and puts the answer in the form that C has. There is one for each name that C links, so those that differ only in what they
// call, or in a type, stay apart.
#![tactic(auto)]

pub mod access;
pub mod labels;
pub mod lines;
pub mod names;
pub mod ranges;
pub mod state;
pub mod version;
