// The records of a call, played from the start: the needed words of the table cleared, and each head 1.
ghost use Rattle.std.specs.Prelude.{◌≡◌, [], ◌*◌, length, take, drop};
ghost use Rattle.record.specs.StepRecords.{step_records};
ghost use Rattle.tree.specs.Layout.{words_needed};
ghost use Rattle.tree.specs.Shape.{shape_for};
ghost use Rattle.calls.specs.Run.{play as played};
ghost use Rattle.player.specs.Clauses.PlayCalls.{PlayResult};
ghost use Rattle.call_player.specs.Clauses.Callable.{Callable};

use player::Outcome;
use player::play::play;
use table::layout::{Layout, Tree};

// Plays the records of a call with p and l, which are allowed, and a table that is long enough. Table words past those
// needed stay.
pub fn play_call(
    p: u32,
    l: u32,
    records: &[u8],
    heads: &mut [u32],
    table: &mut [u32],
    room: usize,
    out: &mut [u8],
    log: &[u8],
) -> Outcome
    requires { Callable p l heads.old (length table.old) room (length out.old) }
    ensures result { PlayResult (played (shape_for p l) room (step_records records.now)) log.now out.old result
        (take (words_needed (shape_for p l)) table.new) heads.new out.new }
    ensures rest { drop (words_needed (shape_for p l)) table.new ≡ drop (words_needed (shape_for p l)) table.old }
{
    let tree = Tree::new(p, l);
    let layout = Layout::new(tree);
    let needed = tree.words_needed();
    table[..needed].fill(0);
    play(
        &layout,
        records,
        heads,
        &mut table[..needed],
        room,
        out,
        log,
    )
}

// The same without answer bytes: there is room for the answer of each record, so none is refused with 9.
pub fn play_unanswered(
    p: u32,
    l: u32,
    records: &[u8],
    heads: &mut [u32],
    table: &mut [u32],
    log: &[u8],
) -> Outcome
    requires { Callable p l heads.old (length table.old) 0 0 }
    ensures result { PlayResult (played (shape_for p l) (2 * length records.now) (step_records records.now)) log.now [] result
        (take (words_needed (shape_for p l)) table.new) heads.new [] }
    ensures rest { drop (words_needed (shape_for p l)) table.new ≡ drop (words_needed (shape_for p l)) table.old }
{
    let mut none = [0u8; 1];
    let room = 2 * records.len();
    play_call(p, l, records, heads, table, room, &mut none[..0], log)
}
