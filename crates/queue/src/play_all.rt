// The records of a call played without an answer buffer, as list the order and check a log play them.
ghost use Rattle.std.specs.Prelude.{◌≡◌, true, ◌*◌, length, take, replicate};
ghost use Rattle.calls.specs.Refusals.{accepted, call_refusal};
ghost use Rattle.queue.specs.Clauses.PlayedAll.{PlayedAll};

use call_player::call::play_unanswered;
use player::Outcome;

// Plays the records of a call that is not turned down, with room for the answer of each, and compares the answers with
// a log. Of 16 heads the first 2p are those of the nodes.
pub fn play_all(
    p: u32,
    l: u32,
    records: &[u8],
    heads: &mut [u32],
    table: &mut [u32],
    log: &[u8],
) -> Outcome
    requires call { accepted (call_refusal p l (length table.old) (length records.now)) ≡ true }
    requires ones { heads.old ≡ replicate 16 1 }
    ensures { PlayedAll p l records.now log.now table.old result (take (2 * p) heads.new) table.new }
{
    let nodes = 2 * p as usize;
    play_unanswered(p, l, records, &mut heads[..nodes], table, log)
}
