// The text of a run, appended to a page: a line for each answer record, and the last line.
#![tactic(auto)]

pub mod line;
pub mod page;
