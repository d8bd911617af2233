// A log that grows, compared with another: how many records at the beginning are equal, and the verdict at the end.
ghost use Rattle.std.specs.Prelude.{◌≡◌, ◌+◌, ◌*◌, ◌<◌};
ghost use Rattle.answer_log.specs.Clauses.Leading.{count_after, verdict_of};

use record::AnswerRecord;

// How many records at the beginning of two logs are equal, when the one with n answers gets another, a, and `equal`
// were so far. Once they differ, later records count no more.
pub fn equal_after(log: &[u8], n: usize, equal: usize, a: AnswerRecord) -> usize
    requires { 16 * n + 16 < 18446744073709551616 }
    ensures { result ≡ count_after log.now n equal a }
{
    if equal != n {
        return equal;
    }
    let at = 16 * n;
    if log.len() < at + 16 {
        return equal;
    }
    let bytes = <[u8; 16]>::from(a);
    if bytes[..] == log[at..at + 16] {
        return equal + 1;
    }
    equal
}

// What checking a log of so many bytes finds, when `equal` records at the beginning are those of the answers: the same
// log, if these are all records of both. A log has whole records here, so its bytes tell how many they are.
#[tactic(auto, unfolding(crate::specs::Clauses::Leading::verdict_of, record::specs::AnswerRecords::answer_size))]
pub fn verdict(equal: usize, answers: usize, bytes: usize) -> calls::Verdict
    requires { 16 * answers < 18446744073709551616 }
    ensures { result ≡ verdict_of equal answers bytes }
{
    if equal != answers {
        return calls::Verdict::Differs(equal as u64);
    }
    if 16 * answers != bytes {
        return calls::Verdict::Differs(equal as u64);
    }
    calls::Verdict::Same
}
