// The forecast: what a list of begin records will need, before it runs. Nothing is played here, and no table is lent.
#![tactic(auto)]

pub mod begins;
pub mod call;

// The words of the work table, the bytes of the answers, and a limit on the records of any run.
#[derive(Clone, Copy, Debug, PartialEq, Eq)]
pub struct Forecast {
    pub words: usize,
    pub answer_bytes: usize,
    pub records: usize,
}
