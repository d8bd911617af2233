// The whole text.
ghost use Rattle.std.specs.Prelude.{◌≡◌, ◌+◌, ◌*◌, ◌/◌, ◌++◌, ◌≤◌, length};
ghost use Rattle.print.specs.Printed.{answer_lines, printed};

use crate::line::{put_last, put_line};
use arrayvec::ArrayString;
use record::AnswerRecord;

// One line an answer. A line has at most 50 bytes.
fn put_lines<const N: usize>(answers: &[u8], page: &mut ArrayString<N>)
    requires { length page.old.bytes + 50 * (length answers.now / 16) ≤ N }
    ensures { page.new.bytes ≡ page.old.bytes ++ answer_lines answers.now (length answers.now / 16) }
{
    for bytes in answers.as_chunks::<16>().0 {
        put_line(AnswerRecord::from(*bytes), page);
    }
}

// The text of n answers, which begin a longer buffer, a refusal number and the records taken. The last line has at most
// 36 bytes.
pub fn put_printed<const N: usize>(
    answers: &[u8],
    n: usize,
    refusal: u32,
    taken: usize,
    page: &mut ArrayString<N>,
)
    requires { (16 * n ≤ length answers.now) × (length page.old.bytes + 50 * n + 36 ≤ N) }
    ensures stored { page.new.bytes ≡ page.old.bytes ++ printed answers.now n refusal taken }
    ensures upper_bound { length page.new.bytes ≤ length page.old.bytes + 50 * n + 36 }
{
    put_lines(&answers[..16 * n], page);
    put_last(refusal, taken, page);
}
