// The forms in which values pass to C and back: `#[repr(C)]` structs of numbers. A flag is 0 or 1 and a choice is a number. What C passes is turned into
// the library's values by `TryFrom`, which refuses a flag and a choice that there is not with 22, and answers are turned into C's by `answer`. Labels,
// ranges, tuples and states pass as they are.
#![tactic(auto)]

pub mod answer;
pub mod caller;
pub mod entry;
pub mod flag;
pub mod outcome;
pub mod request;
pub mod style;
