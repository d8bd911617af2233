// A log of answers as it grows by one answer: written, and compared with another. How many answers there are goes beside
// the bytes, which may be none while it grows.
#![tactic(auto)]

pub mod compare;
pub mod write;
