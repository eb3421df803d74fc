// What every crate answers with: a value or a refusal, `Result<T, Errno>`, and refusals have their numbers here. Its definitions have answers as
// document 01 gives them, lists, tests and searches by the index, and what a writer does to a lent buffer.
#![tactic(auto)]

pub mod errno;
