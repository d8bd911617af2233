// The answer of an operation, at its Q.
#![tactic(auto)]

pub mod answers;
pub mod margin;
mod replies;
