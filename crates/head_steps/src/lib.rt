// The code of the named steps that look at heads alone: each takes a process and gives the process that it becomes,
// whatever the table is. R2 and R4, and C1 and C2, are alike but for the named step that each takes apart and makes, and
// no parameter stands for a variant.
#![tactic(auto)]

ghost use Rattle.std.specs.Prelude.{◌≡◌, true, false, ℕ, ◌+◌, ◌*◌, ◌/◌, ◌≤◌, ◌<◌, length, get_or};
ghost use Rattle.stepping.specs.Clauses.Next.{step_in, StepsByHeads, StepsTelling, Raises, AdvancesChild};
ghost use Rattle.steps.specs.Rules.{of_child};
ghost use Rattle.steps.specs.Clauses.Ready.{Children};

use node_parts::heads::{head_of, raise};
use stepping::sequence::{after_child, after_own};
use stepping::turn::{by_fields, moved, moved_telling, step_in};
use steps::{After, Process, Refresh, Step, Visit};

// V1: the parent's head is what V2 sets super of v's block to.
pub fn step_v1(heads: &[u32], q: Process) -> Process
    requires { (q.steps < 65536) × ((a : After) (w : Visit) (v h : ℕ) → step_in q.status ≡ Step.V1 a w v h → v / 2 < length heads.now) }
    ensures { StepsByHeads (λ P. (a : After) (w : Visit) (v h : ℕ) → P (Step.V1 a w v h)) heads.now heads.now q result }
{
    let Step::V1 {
        after,
        visit,
        node,
        place,
    } = step_in(q)
    else {
        return q;
    };
    let visit = by_fields(visit);
    let above = head_of(heads, node / 2);
    moved(
        q,
        Step::V2 {
            after,
            visit,
            node,
            place,
            above,
        },
    )
}

// V3 raises the head of v past the block at h, and tells whether the head moved. A process at another step raises none.
fn raise_in(heads: &mut [u32], q: Process) -> bool
    requires { (a : After) (w : Visit) (v h : ℕ) → step_in q.status ≡ Step.V3 a w v h → (v < length heads.old) × (h < 65536) }
    ensures { Raises heads.old heads.new q result }
{
    let Step::V3 { node, place, .. } = step_in(q) else {
        return false;
    };
    raise(heads, node, place)
}

// Whether the advance that a process at V3 is in is of a child. A process at another step is in none.
pub fn advances_child(q: Process) -> bool
    ensures { AdvancesChild q result }
{
    let Step::V3 { after, .. } = step_in(q) else {
        return false;
    };
    match after {
        After::Right | After::Ends => true,
        After::Again | After::Up => false,
    }
}

// V3 in the advance of a child: the refresh goes on. That the head moved is passed on as a help.
pub fn step_v3_child(heads: &mut [u32], q: Process) -> Process
    requires { (q.steps < 65536) × (q.helps < 65536) × ((a : After) (w : Visit) (v h : ℕ) → step_in q.status ≡ Step.V3 a w v h →
        (of_child a ≡ true) × (v < length heads.old) × (h < 65536)) }
    ensures { StepsTelling (λ P. (a : After) (w : Visit) (v h : ℕ) → P (Step.V3 a w v h)) heads.old heads.new q result }
{
    let raised = raise_in(heads, q);
    let Step::V3 { after, visit, .. } = step_in(q) else {
        return q;
    };
    moved_telling(q, after_child(after, visit), raised)
}

// V3 in the advance of the own leaf or of the refreshed node, which is no help, whether the head moves or not.
pub fn step_v3_own(heads: &mut [u32], q: Process) -> Process
    requires { (q.steps < 65536) × ((a : After) (w : Visit) (v h : ℕ) → step_in q.status ≡ Step.V3 a w v h →
        (of_child a ≡ false) × (v < length heads.old) × (h < 65536)) }
    ensures { StepsByHeads (λ P. (a : After) (w : Visit) (v h : ℕ) → P (Step.V3 a w v h)) heads.old heads.new q result }
{
    raise_in(heads, q);
    let Step::V3 { after, visit, .. } = step_in(q) else {
        return q;
    };
    moved(q, after_own(after, visit))
}

// R1: the head of v is the place at which this refresh is to write.
pub fn step_r1(heads: &[u32], q: Process) -> Process
    requires { (q.steps < 65536) × ((x : Refresh) (v : ℕ) → step_in q.status ≡ Step.R1 x v → v < length heads.now) }
    ensures { StepsByHeads (λ P. (x : Refresh) (v : ℕ) → P (Step.R1 x v)) heads.now heads.now q result }
{
    let Step::R1 { refresh, node } = step_in(q) else {
        return q;
    };
    moved(
        q,
        Step::R2 {
            visit: Visit {
                node: node,
                head: head_of(heads, node),
                refresh: refresh,
            },
        },
    )
}

// R2: the left child's head, where a block may stand that its writer has not advanced yet.
pub fn step_r2(heads: &[u32], q: Process) -> Process
    requires { (q.steps < 65536) × ((w : Visit) → step_in q.status ≡ Step.R2 w → Children heads.now w) }
    ensures { StepsByHeads (λ P. (w : Visit) → P (Step.R2 w)) heads.now heads.now q result }
{
    let Step::R2 { visit } = step_in(q) else {
        return q;
    };
    let child = head_of(heads, 2 * visit.node);
    moved(q, Step::R3 { visit, child })
}

// R4: the same of the right child.
pub fn step_r4(heads: &[u32], q: Process) -> Process
    requires { (q.steps < 65536) × ((w : Visit) → step_in q.status ≡ Step.R4 w → Children heads.now w) }
    ensures { StepsByHeads (λ P. (w : Visit) → P (Step.R4 w)) heads.now heads.now q result }
{
    let Step::R4 { visit } = step_in(q) else {
        return q;
    };
    let child = head_of(heads, 2 * visit.node + 1);
    moved(q, Step::R5 { visit, child })
}

// C1: the left end is the last block below the left child's head, which is at least 1.
pub fn step_c1(heads: &[u32], q: Process) -> Process
    requires { (q.steps < 65536) × ((w : Visit) → step_in q.status ≡ Step.C1 w → Children heads.now w × (1 ≤ get_or heads.now (2 * w.node) 1)) }
    ensures { StepsByHeads (λ P. (w : Visit) → P (Step.C1 w)) heads.now heads.now q result }
{
    let Step::C1 { visit } = step_in(q) else {
        return q;
    };
    let left = head_of(heads, 2 * visit.node) - 1;
    moved(q, Step::C2 { visit, left })
}

// C2: the same of the right child.
pub fn step_c2(heads: &[u32], q: Process) -> Process
    requires { (q.steps < 65536) × ((w : Visit) (l : ℕ) → step_in q.status ≡ Step.C2 w l → Children heads.now w × (1 ≤ get_or heads.now (2 * w.node + 1) 1)) }
    ensures { StepsByHeads (λ P. (w : Visit) (l : ℕ) → P (Step.C2 w l)) heads.now heads.now q result }
{
    let Step::C2 { visit, left } = step_in(q) else {
        return q;
    };
    let right = head_of(heads, 2 * visit.node + 1) - 1;
    moved(q, Step::C3L { visit, left, right })
}
