// A process that takes a step: its operation and its step, and the process that it becomes.
ghost use Rattle.std.specs.Prelude.{false, ◌≡◌, ℕ, ◌+◌, ◌<◌, if◌then◌else◌};
ghost use Rattle.tree.specs.Shape.{Shape};
ghost use Rattle.tree.specs.Memory.{Memory};
ghost use Rattle.steps.specs.Rules.{go_telling};
ghost use Rattle.steps.specs.Machine.{is_idle, stepped};
ghost use Rattle.stepping.specs.Clauses.Next.{operation_in, step_in, moved as moved_of};

use steps::{Operation, Process, Status, Step, Visit};

// The operation that a busy process is inside of; no contract asks it of an idle one (specs/Clauses/Next).
pub fn operation_in(q: Process) -> Operation
    requires { is_idle q.status ≡ false }
    ensures { result ≡ operation_in q.status }
{
    match q.status {
        Status::Idle => Operation::Take,
        Status::Busy(o, _) => o,
    }
}

// The step that a process is at. An idle one is at none: the next that it comes to is A.
pub fn step_in(q: Process) -> Step
    ensures { result ≡ step_in q.status }
{
    match q.status {
        Status::Idle => Step::A,
        Status::Busy(_, n) => n,
    }
}

// A busy process q after a step that is no help, with step n next.
pub fn moved(q: Process, n: Step) -> Process
    requires { (q.steps < 65536) × (is_idle q.status ≡ false) }
    ensures { result ≡ moved_of q (operation_in q.status) n }
{
    Process {
        status: Status::Busy(operation_in(q), n),
        begun: q.begun,
        steps: q.steps + 1,
        helps: q.helps,
    }
}

// The helps after a step that was one or not.
fn helps_after(helps: u32, helped: bool) -> u32
    requires { helps < 65536 }
    ensures { result ≡ (if helped then helps + 1 else helps) }
{
    if helped {
        return helps + 1;
    }
    helps
}

// A busy process q after its step, with step n next, which tells whether it was a help. It is apart from `moved`, so
// that a step that is no help has no bound of the helps to show.
pub fn moved_telling(q: Process, n: Step, helped: bool) -> Process
    requires { (q.steps < 65536) × (q.helps < 65536) × (is_idle q.status ≡ false) }
    ensures { (s : Shape) (number k : ℕ) (m after : Memory) → result ≡ stepped q (go_telling s number k (operation_in q.status) m after n helped) }
{
    Process {
        status: Status::Busy(operation_in(q), n),
        begun: q.begun,
        steps: q.steps + 1,
        helps: helps_after(q.helps, helped),
    }
}

// A visit as it is, copied field by field: a copy of the whole is one wide read, which has to wait for the narrow
// writes before it, and took up to 2.5 ns a record more.
pub fn by_fields(w: Visit) -> Visit
    ensures { result ≡ w }
{
    Visit {
        node: w.node,
        head: w.head,
        refresh: w.refresh,
    }
}
