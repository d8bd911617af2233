// The tests that a call makes before its first record: a call that fails one changes nothing.
ghost use Rattle.std.specs.Prelude.{◌≡◌, true};
ghost use Rattle.calls.specs.Refusals.{accepted, settings_refusal, bytes_refusal, buffer_refusal, call_refusal};
ghost use Rattle.tree.specs.Shape.{shape_for};
ghost use Rattle.calls.specs.CheckLog.{check_refusal};

use calls::Refusal;
use steps::Process;
use table::layout::Tree;

// The settings of a call, p and l: 1, 2.
#[tactic(auto, unfolding(calls::specs::Refusals::settings_refusal))]
pub fn settings(p: u32, l: u32) -> Result<(), Refusal>
    ensures { result ≡ settings_refusal p l }
{
    if !Process::processes_allowed(p) {
        return Err(Refusal::Processes);
    }
    if !Process::operations_allowed(l) {
        return Err(Refusal::Operations);
    }
    Ok(())
}

// Its list, so many bytes of records: 4.
#[tactic(auto, unfolding(calls::specs::Refusals::bytes_refusal, calls::specs::Refusals::torn, record::specs::StepRecords::step_size))]
pub fn of_bytes(bytes: usize) -> Result<(), Refusal>
    ensures { result ≡ bytes_refusal bytes }
{
    if bytes % 8 != 0 {
        return Err(Refusal::RecordsTorn);
    }
    Ok(())
}

// Its buffers, a work table of so many words and so many bytes of records: 3, 4.
fn buffers(p: u32, l: u32, words: usize, bytes: usize) -> Result<(), Refusal>
    requires { accepted (settings_refusal p l) ≡ true }
    ensures { result ≡ buffer_refusal (shape_for p l) words bytes }
{
    if words < Tree::new(p, l).words_needed() {
        return Err(Refusal::TableShort);
    }
    of_bytes(bytes)
}

// A call: 1, 2, 3, 4.
#[tactic(auto, unfolding(calls::specs::Refusals::call_refusal, calls::specs::Refusals::first_refusal, calls::specs::Refusals::accepted))]
pub fn of_call(p: u32, l: u32, words: usize, bytes: usize) -> Result<(), Refusal>
    ensures { result ≡ call_refusal p l words bytes }
{
    settings(p, l)?;
    buffers(p, l, words, bytes)
}

// The same with so many bytes of a log: then 11.
#[tactic(auto, unfolding(calls::specs::CheckLog::check_refusal, calls::specs::Refusals::first_refusal, calls::specs::Refusals::accepted, calls::specs::Refusals::torn, record::specs::AnswerRecords::answer_size))]
pub fn of_check(p: u32, l: u32, words: usize, bytes: usize, log: usize) -> Result<(), Refusal>
    ensures { result ≡ check_refusal p l words bytes log }
{
    of_call(p, l, words, bytes)?;
    if log % 16 != 0 {
        return Err(Refusal::LogTorn);
    }
    Ok(())
}
