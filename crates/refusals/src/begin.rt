// The tests of a begin record after 5.
ghost use Rattle.std.specs.Prelude.{◌≡◌};
ghost use Rattle.calls.specs.Refusals.{begin_refusal};

use calls::Refusal;
use steps::Process;

// A begin by process q, where a process has at most l operations: 8, 6.
#[tactic(auto, unfolding(calls::specs::Refusals::begin_refusal))]
pub fn begin_refusal(l: u32, q: Process) -> Result<(), Refusal>
    ensures { result ≡ begin_refusal l q }
{
    let idle = q.is_idle();
    let begun_all = l as u64 <= q.begun;
    if begun_all {
        return Err(Refusal::BegunAll);
    }
    if !idle {
        return Err(Refusal::BeginWhileBusy);
    }
    Ok(())
}
