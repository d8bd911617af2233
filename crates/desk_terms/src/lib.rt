// The bytes and words of the desk: the first foreign entry of a list, the values that operations received, the terms in
// the order of a list and their bytes. This crate knows the records and nothing else of the queue.
#![tactic(auto)]

pub mod collect;
pub mod entries;
pub mod receive;
pub mod send;
