// A log that grows, written: each answer behind those before it.
ghost use Rattle.std.specs.Prelude.{◌≡◌, ◌+◌, ◌*◌, ◌<◌};
ghost use Rattle.answer_log.specs.Clauses.Leading.{with_answer};

use record::AnswerRecord;

// An answer written after n others. Where there are no answer bytes nothing is written: a call that only compares or
// lists has none.
pub fn write_answer(out: &mut [u8], n: usize, a: AnswerRecord)
    requires { 16 * n + 16 < 18446744073709551616 }
    ensures { out.new ≡ with_answer out.old n a }
{
    let at = 16 * n;
    if at + 16 <= out.len() {
        out[at..at + 16].copy_from_slice(&<[u8; 16]>::from(a));
    }
}
