// Where an operation stands in the root, and which put has a number. This crate knows nothing of records.
#![tactic(auto)]

pub mod climb;
pub mod find;
pub mod places;

// Where an operation stands: its root block, and its number among the takes there, from 1.
#[derive(Clone, Copy)]
pub struct Standing {
    pub block: u32,
    pub rank: u32,
}
