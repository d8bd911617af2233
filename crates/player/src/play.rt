// The loop that plays a list of records. Run, list the order and check a log share it: they differ in what they do with
// its answers.
ghost use Rattle.std.specs.Prelude.{◌≡◌, length};
ghost use Rattle.record.specs.StepRecords.{step_records};
ghost use Rattle.calls.specs.Run.{play as played};
ghost use Rattle.player.specs.Clauses.PlayCalls.{AtStart, PlayResult};

use crate::Outcome;
use answer::answers::answer_of;
use answer_log::compare::equal_after;
use answer_log::write::write_answer;
use block_steps::{step_a, step_c4, step_r3, step_r5, step_v2};
use build_steps::{adds_nothing, step_c3l, step_c3n_on, step_c3n_up, step_c3r};
use calls::Refusal;
use decode::begins::begin_of;
use decode::numbers::number_after;
use encoding::word_at;
use head_steps::{
    advances_child, step_c1, step_c2, step_r1, step_r2, step_r4, step_v1, step_v3_child,
    step_v3_own,
};
use refusals::begin::begin_refusal;
use stepping::turn::operation_in;
use steps::{Process, Status, Step};
use table::layout::Layout;

// What the loop comes to: a function, since a struct literal at each of its six ends takes six lines.
fn ended(ended: Result<(), Refusal>, taken: usize, answers: usize, equal: usize) -> Outcome
    ensures { result ≡ record { ended = ended; taken = taken; answers = answers; equal = equal } }
{
    Outcome {
        ended,
        taken,
        answers,
        equal,
    }
}

// Plays the records from the start, where there is room for `room` bytes of answers. Each answer is written to `out`,
// if that has any bytes, and compared with the one in the same place of `log`: no closure says what is done with it, whose
// contract would be longer than these two calls. A record is told by its two words, read where they stand, and counted,
// since its number is written into blocks; why, and why Q takes the process modulo p, below which it is,
// docs/DECISIONS.md says in "Two words tell a record". Each named step has its own arm and no closure: it reads the
// process again and stores it, so that a step loads and stores only the registers that it uses.
pub fn play(
    layout: &Layout,
    records: &[u8],
    heads: &mut [u32],
    table: &mut [u32],
    room: usize,
    out: &mut [u8],
    log: &[u8],
) -> Outcome
    requires { AtStart layout.now heads.old table.old room (length out.old) }
    ensures { PlayResult (played layout.now room (step_records records.now)) log.now out.old result table.new heads.new out.new }
{
    let p = layout.processes() as u32;
    let l = layout.most() as u32;
    let idle = Process::start();
    // at most 8 processes, and no heap
    let mut procs = [idle; 8];
    let n = records.len() / 8;
    let mut answers: usize = 0;
    let mut equal: usize = 0;
    let mut free = room;
    for i in 0..n {
        let at = 8 * i;
        let first = word_at(records, at);
        if first < p {
            if word_at(records, at + 4) != 0 {
                return ended(Err(Refusal::IllFormed), i, answers, equal);
            }
            let k = first as usize;
            // so that no arm has its bounds to prove
            prove!(k < 8);
            let seen = procs[k];
            let status = seen.status;
            match status {
                Status::Idle => return ended(Err(Refusal::StepWhileIdle), i, answers, equal),
                Status::Busy(_, step) => match step {
                    Step::A => {
                        let q = procs[k];
                        procs[k] = step_a(heads, table, layout, p + first, number_after(i), q);
                        continue;
                    }
                    Step::V1 { .. } => {
                        let q = procs[k];
                        procs[k] = step_v1(heads, q);
                        continue;
                    }
                    Step::V2 { .. } => {
                        let q = procs[k];
                        procs[k] = step_v2(table, layout, q);
                        continue;
                    }
                    Step::V3 { .. } => {
                        let q = procs[k];
                        if advances_child(q) {
                            procs[k] = step_v3_child(heads, q);
                            continue;
                        }
                        procs[k] = step_v3_own(heads, q);
                        continue;
                    }
                    Step::R1 { .. } => {
                        let q = procs[k];
                        procs[k] = step_r1(heads, q);
                        continue;
                    }
                    Step::R2 { .. } => {
                        let q = procs[k];
                        procs[k] = step_r2(heads, q);
                        continue;
                    }
                    Step::R3 { .. } => {
                        let q = procs[k];
                        procs[k] = step_r3(table, layout, q);
                        continue;
                    }
                    Step::R4 { .. } => {
                        let q = procs[k];
                        procs[k] = step_r4(heads, q);
                        continue;
                    }
                    Step::R5 { .. } => {
                        let q = procs[k];
                        procs[k] = step_r5(table, layout, q);
                        continue;
                    }
                    Step::C1 { .. } => {
                        let q = procs[k];
                        procs[k] = step_c1(heads, q);
                        continue;
                    }
                    Step::C2 { .. } => {
                        let q = procs[k];
                        procs[k] = step_c2(heads, q);
                        continue;
                    }
                    Step::C3L { .. } => {
                        let q = procs[k];
                        procs[k] = step_c3l(table, layout, q);
                        continue;
                    }
                    Step::C3R { .. } => {
                        let q = procs[k];
                        procs[k] = step_c3r(table, layout, q);
                        continue;
                    }
                    Step::C3N { .. } => {
                        let q = procs[k];
                        if adds_nothing(table, layout, q) {
                            procs[k] = step_c3n_up(q);
                            continue;
                        }
                        procs[k] = step_c3n_on(table, layout, q);
                        continue;
                    }
                    Step::C4 { .. } => {
                        let q = procs[k];
                        procs[k] = step_c4(table, layout, number_after(i), q);
                        continue;
                    }
                    Step::Q => {
                        if free < 16 {
                            return ended(Err(Refusal::AnswersFull), i, answers, equal);
                        }
                        let q = procs[k];
                        let a = answer_of(heads, table, layout, first % p, q, operation_in(q));
                        equal = equal_after(log, answers, equal, a);
                        write_answer(out, answers, a);
                        answers = answers + 1;
                        free = free - 16;
                        procs[k] = q.rested();
                        continue;
                    }
                },
            }
        }
        let Some(begin) = begin_of(p, first, word_at(records, at + 4)) else {
            return ended(Err(Refusal::IllFormed), i, answers, equal);
        };
        let k = begin.process as usize;
        prove!(k < 8);
        let q = procs[k];
        match begin_refusal(l, q) {
            Ok(()) => procs[k] = q.entered(begin.operation),
            Err(why) => return ended(Err(why), i, answers, equal),
        }
    }
    ended(Ok(()), n, answers, equal)
}
