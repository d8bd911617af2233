// What a call turns down before its first record, and the tests of a begin.
#![tactic(auto)]

pub mod before;
pub mod begin;
