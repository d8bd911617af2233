// Check a log.
ghost use Rattle.std.specs.Prelude.{◌≡◌, true, length};
ghost use Rattle.calls.specs.Refusals.{accepted};
ghost use Rattle.calls.specs.CheckLog.{check_refusal, check_log, verdict_number, verdict_index};
ghost use Rattle.calls.specs.LogVerdict.{Judges};
ghost use Rattle.queue.specs.Left.{check_left};

use crate::play_all::play_all;
use answer_log::compare::verdict;
use calls::{Refusal, Verdict};
use refusals::before::of_check;

// Check a log, of a call that is not turned down.
fn check_accepted(
    p: u32,
    l: u32,
    records: &[u8],
    log: &[u8],
    table: &mut [u32],
) -> Result<Verdict, Refusal>
    requires { accepted (check_refusal p l (length table.old) (length records.now) (length log.now)) ≡ true }
    ensures { check_left result table.new ≡ check_log p l records.now log.now table.old }
{
    let mut heads = [1u32; 16];
    let o = play_all(p, l, records, &mut heads, table, log);
    o.ended?;
    Ok(verdict(o.equal, o.answers, log.len()))
}

// Plays step records as Run does and compares their answers with a log, record by record. What it returns and all that
// it leaves in the table is what the rules say; and the verdict is 'same' exactly if nothing is refused and the log is
// byte for byte that of the rules, 'differs' with an index exactly if nothing is refused and the logs first differ at
// that record.
#[tactic(auto, unfolding(calls::specs::Refusals::accepted))]
pub fn check_log(
    p: u32,
    l: u32,
    records: &[u8],
    log: &[u8],
    table: &mut [u32],
) -> Result<Verdict, Refusal>
    ensures rules { check_left result table.new ≡ check_log p l records.now log.now table.old }
    ensures judges { Judges p l (length table.old) records.now log.now (verdict_number result) (verdict_index result) }
{
    of_check(p, l, table.len(), records.len(), log.len())?;
    check_accepted(p, l, records, log, table)
}
