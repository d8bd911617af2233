// Run: plays a list and writes its answers.
ghost use Rattle.std.specs.Prelude.{◌≡◌, true, ◌*◌, length, take};
ghost use Rattle.record.specs.StepRecords.{step_records};
ghost use Rattle.record.specs.AnswerRecords.{answer_size};
ghost use Rattle.tree.specs.Layout.{words_needed};
ghost use Rattle.calls.specs.Refusals.{accepted, call_refusal};
ghost use Rattle.tree.specs.Shape.{shape_for};
ghost use Rattle.calls.specs.Run.{run as run_of};
ghost use Rattle.calls.specs.Demand3.{Demand3};
ghost use Rattle.superblocks.specs.Supers.{SupersNear};
ghost use Rattle.block_numbers.specs.BlockNumbers.{NumbersTell};
ghost use Rattle.queue.specs.Left.{run_left};

use crate::Ran;
use call_player::call::play_call;
use refusals::before::of_call;

// Run, of a call that is not turned down.
fn run_accepted(p: u32, l: u32, records: &[u8], table: &mut [u32], answers: &mut [u8]) -> Ran
    requires { accepted (call_refusal p l (length table.old) (length records.now)) ≡ true }
    ensures { run_left result table.new answers.new ≡ run_of p l records.now table.old answers.old }
{
    let mut heads = [1u32; 16];
    let nodes = 2 * p as usize;
    let room = answers.len();
    let o = play_call(
        p,
        l,
        records,
        &mut heads[..nodes],
        table,
        room,
        answers,
        &records[..0],
    );
    Ran {
        ended: o.ended,
        taken: o.taken,
        answers: o.answers,
    }
}

// Plays step records with p processes of at most l operations each, and writes the answers. What it returns and all
// that it leaves in the table and in the answer bytes is what the step rules say; and of a call that is not turned
// down, demand 3 holds of the records that it took, the bytes that it wrote and the needed words that it left. In these
// words each superblock stands at its block's super or one place later, and each block's number tells the record that
// wrote it, rises with place and is above those of its subblocks.
#[tactic(auto, unfolding(calls::specs::Refusals::accepted))]
pub fn run(p: u32, l: u32, records: &[u8], table: &mut [u32], answers: &mut [u8]) -> Ran
    ensures rules { run_left result table.new answers.new ≡ run_of p l records.now table.old answers.old }
    ensures demand3 { accepted (call_refusal p l (length table.old) (length records.now)) ≡ true →
        Demand3 p l (take result.taken (step_records records.now)) (take (answer_size * result.answers) answers.new) (take (words_needed (shape_for p l)) table.new) }
    ensures supers { accepted (call_refusal p l (length table.old) (length records.now)) ≡ true →
        SupersNear (shape_for p l) (take (words_needed (shape_for p l)) table.new) }
    ensures numbers { accepted (call_refusal p l (length table.old) (length records.now)) ≡ true →
        NumbersTell (shape_for p l) (take result.taken (step_records records.now)) (take (words_needed (shape_for p l)) table.new) }
{
    match of_call(p, l, table.len(), records.len()) {
        Ok(()) => run_accepted(p, l, records, table, answers),
        Err(why) => Ran {
            ended: Err(why),
            taken: 0,
            answers: 0,
        },
    }
}
