// One node's part of the work table, and its head: blocks read, tested, searched and written. This crate knows nothing of
// where the part stands.
#![tactic(auto)]

pub mod bisect;
pub mod blocks;
pub mod heads;
