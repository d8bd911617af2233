// The answer record of an operation whose next step is Q.
ghost use Rattle.std.specs.Prelude.{◌≡◌, List, ◌<◌};
ghost use Rattle.base.specs.Clauses.Some.{Some};
ghost use Rattle.steps.specs.declared.Process.{Process as Proc};
ghost use Rattle.steps.specs.declared.Status.TheVariants.{Busy};
ghost use Rattle.steps.specs.declared.Step.TheVariants.{Q};
ghost use Rattle.calls.specs.Answer.{answer_of};
ghost use Rattle.answer.specs.Clauses.Playing.{machine_of, Plays};
ghost use Rattle.answer.specs.Clauses.Answering.{record_of};

use crate::replies::take_reply;
use record::{AnswerRecord, Reply};
use search::climb::{root_block, standing};
use steps::{Operation, Process};
use table::layout::Layout;

// The answer record of process k, which is q, with a reply and a root block. Q is one more own step. The caller shows
// that the process, the steps and the helps fit their bytes.
fn answer(k: u32, q: Process, reply: Reply, block: u32) -> AnswerRecord
    requires { (k < 256) × (q.steps < 255) × (q.helps < 256) × (q.begun < 65536) }
    ensures { result ≡ record_of k q reply block }
{
    AnswerRecord {
        process: k as u8,
        reply: reply,
        steps: (q.steps + 1) as u8,
        helps: q.helps as u8,
        serial: q.serial(),
        block: block,
    }
}

// The answer of operation o of process k, which is q. Only a take's reply goes by its number in the root block.
pub fn answer_of(
    heads: &[u32],
    table: &[u32],
    layout: &Layout,
    k: u32,
    q: Process,
    o: Operation,
) -> AnswerRecord
    requires { Some (λ ps. Plays layout.now ps heads.now table.now k q) × (q.status ≡ Busy o Q) }
    ensures { (ps : List Proc) → Plays layout.now ps heads.now table.now k q →
        result ≡ answer_of layout.now (machine_of table.now heads.now ps) k o }
{
    let serial = q.serial();
    match o {
        Operation::Put(_) => {
            let block = root_block(heads, table, layout, k, serial);
            answer(k, q, Reply::Done, block)
        }
        Operation::Take => {
            let at = standing(heads, table, layout, k, serial);
            let reply = take_reply(table, layout, at.block, at.rank);
            answer(k, q, reply, at.block)
        }
    }
}
