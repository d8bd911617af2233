// What the words of a record say that is no step: who opens which operation.
ghost use Rattle.std.specs.Prelude.{◌≡◌, ◌≤◌, ◌<◌, leb, None, Some, if◌then◌else◌};
ghost use Rattle.record.specs.declared.StepRecord.{StepRecord};
ghost use Rattle.decode.specs.Clauses.Begins.{first_word, begin_of};

use crate::Begin;
use steps::Operation;

// A begin of an operation, if the process is below p.
fn begin_by(p: u32, process: u32, operation: Operation) -> Option<Begin>
    ensures { result ≡ (if leb p process then None else Some (record { process = process; operation = operation })) }
{
    if p <= process {
        return None;
    }
    Some(Begin { process, operation })
}

// The begin that a record with these two words is, where there are p processes, or none if it is ill-formed; the first
// word of a step is below p.
// The process is in the word's low byte and the kind in the next, and the other two are zero.
pub fn begin_of(p: u32, first: u32, value: u32) -> Option<Begin>
    requires { (p ≤ first) × (p ≤ 256) }
    ensures { (r : StepRecord) → r.process < 256 → r.kind < 256 → first ≡ first_word r → value ≡ r.value → result ≡ begin_of p r }
{
    if first < 256 {
        return None;
    }
    if first < 512 {
        return begin_by(p, first - 256, Operation::Put(value));
    }
    if value != 0 {
        return None;
    }
    begin_by(p, first - 512, Operation::Take)
}
