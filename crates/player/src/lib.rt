// Records played one after the other.
#![tactic(auto)]

pub mod play;

use calls::Refusal;

// What playing a list of records comes to: the refusal that ended it, if any did, the records taken, the answers given, and how many answers at
// the beginning are equal to those of a log.
#[derive(Clone, Copy, Debug, PartialEq, Eq)]
pub struct Outcome {
    pub ended: Result<(), Refusal>,
    pub taken: usize,
    pub answers: usize,
    pub equal: usize,
}
