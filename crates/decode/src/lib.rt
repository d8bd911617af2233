// What a record that is no step says, by its two words: who begins which operation, or that it is ill-formed; and the
// number of a record in its list.
#![tactic(auto)]

pub mod begins;
pub mod numbers;

use steps::Operation;

// The process that a record names opens an operation.
#[derive(Clone, Copy)]
pub struct Begin {
    pub process: u32,
    pub operation: Operation,
}
