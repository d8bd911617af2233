// What Run, list the order, check a log and the forecast do, defined; that demand 3 holds of every run; and the limit
// on its records. There is no code here but the enums of the answers and the numbers of the refusals.
#![tactic(auto)]

ghost use Rattle.std.specs.Prelude.{◌≡◌};
ghost use Rattle.calls.specs.Refusals.{paper_number};

// Why a call or a record is refused.
#[derive(Clone, Copy, Debug, PartialEq, Eq)]
pub enum Refusal {
    Processes,
    Operations,
    TableShort,
    RecordsTorn,
    IllFormed,
    BeginWhileBusy,
    StepWhileIdle,
    BegunAll,
    AnswersFull,
    OutputShort,
    LogTorn,
    StepAmongBegins,
}

// The paper's number of a refusal.
impl From<Refusal> for u32 {
    ghost from_gives = { λ x y. y ≡ paper_number x };

    #[tactic(auto, unfolding(crate::specs::Refusals::paper_number))]
    fn from(x: Refusal) -> u32 {
        match x {
            Refusal::Processes => 1,
            Refusal::Operations => 2,
            Refusal::TableShort => 3,
            Refusal::RecordsTorn => 4,
            Refusal::IllFormed => 5,
            Refusal::BeginWhileBusy => 6,
            Refusal::StepWhileIdle => 7,
            Refusal::BegunAll => 8,
            Refusal::AnswersFull => 9,
            Refusal::OutputShort => 10,
            Refusal::LogTorn => 11,
            Refusal::StepAmongBegins => 12,
        }
    }
}

// What checking a log finds: the same log, or the index of the first record that differs.
#[derive(Clone, Copy, Debug, PartialEq, Eq)]
pub enum Verdict {
    Same,
    Differs(u64),
}
