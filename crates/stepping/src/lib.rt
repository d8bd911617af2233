// What the code of all named steps shares: which step comes next, and the process after a step.
//
// Each function of a step asks that the process has less than 65,536 own steps. No type's invariant could say it, since
// each step adds one: the limit is that of a run.
#![tactic(auto)]

pub mod sequence;
pub mod turn;
