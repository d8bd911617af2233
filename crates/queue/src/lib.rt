// The public library: Run, list the order, check a log and the forecast. Each call turns down, plays and leaves what
// its definition says (crate calls). The calls and what they share take p and l as C gives them, and what they need
// and leave is stated by p and l. What a call needs beside the memory that it is lent stands in fixed arrays, since the
// library has no heap.
#![tactic(auto)]

pub mod check_log;
pub mod exports;
pub mod list_order;
mod play_all;
pub mod run;

ghost use Rattle.std.specs.Prelude.{◌≡◌};
ghost use Rattle.calls.specs.Refusals.{refusal_number};

use calls::Refusal;

// What Run returns: the refusal that ended it, if any did, the records taken and the answers written.
#[derive(Clone, Copy, Debug, PartialEq, Eq)]
pub struct Ran {
    pub ended: Result<(), Refusal>,
    pub taken: usize,
    pub answers: usize,
}

impl Ran {
    // The paper's number of the refusal, 0 for none.
    #[tactic(auto, unfolding(calls::specs::Refusals::refusal_number))]
    pub fn refusal_number(self) -> u32
        ensures { result ≡ refusal_number self.ended }
    {
        match self.ended {
            Ok(()) => 0,
            Err(why) => u32::from(why),
        }
    }
}

// The same for C: a refusal is its number, 0 for none.
#[repr(C)]
#[derive(Clone, Copy)]
pub struct OtqRun {
    pub refusal: u32,
    pub taken: u64,
    pub answers: u64,
}

// What list the order returns, for C: a refusal's number, and the length of the list in bytes.
#[repr(C)]
#[derive(Clone, Copy)]
pub struct OtqList {
    pub refusal: u32,
    pub length: u64,
}

// What check a log returns, for C: a refusal's number, a verdict's (0 same, 1 differs, 2 refused), and the index of the
// first record that differs, 0 where none does.
#[repr(C)]
#[derive(Clone, Copy)]
pub struct OtqCheck {
    pub refusal: u32,
    pub verdict: u32,
    pub index: u64,
}

// What the forecast returns, for C: a refusal's number, the words of the work table, the bytes of the answers, and a
// limit on the records of any run.
#[repr(C)]
#[derive(Clone, Copy)]
pub struct OtqForecast {
    pub refusal: u32,
    pub words: u64,
    pub answer_bytes: u64,
    pub records: u64,
}
