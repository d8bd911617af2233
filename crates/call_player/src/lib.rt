// The records of a whole call, played from the start.
#![tactic(auto)]

pub mod call;
