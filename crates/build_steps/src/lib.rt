// The code of the named steps that build a block, C3L, C3R and C3N: each takes a process and gives the process that it
// becomes. No head is read, so they hold whatever the heads are.
#![tactic(auto)]

ghost use Rattle.std.specs.Prelude.{true, ◌≡◌, ℕ, ◌+◌, ◌*◌, ◌-◌, ◌<◌, ◌≤◌};
ghost use Rattle.steps.specs.Rules.{above as above_of, built, same_totals};
ghost use Rattle.stepping.specs.Clauses.Next.{step_in, StepsByTable, Decided, GoesFromC3N};
ghost use Rattle.tree.specs.Blocks.{block_at};
ghost use Rattle.tree.specs.Clauses.Access.{HasPlace, totals_of};
ghost use Rattle.steps.specs.Clauses.Ready.{Sums, Decides};
ghost use Rattle.tree.specs.Size.{root_size};

use stepping::sequence::above;
use stepping::turn::{moved, step_in};
use steps::{Built, Process, Step, Visit};
use table::layout::Layout;
use tree::{Block, Totals};

// C3L: the totals of the left child's block at the end that C1 found.
pub fn step_c3l(table: &[u32], layout: &Layout, q: Process) -> Process
    requires { (q.steps < 65536) × ((w : Visit) (l r : ℕ) → step_in q.status ≡ Step.C3L w l r →
        HasPlace layout.now table.now (2 * w.node) l) }
    ensures { (number : ℕ) → StepsByTable (λ P. (w : Visit) (l r : ℕ) → P (Step.C3L w l r)) layout.now number table.now table.now q result }
{
    let Step::C3L { visit, left, right } = step_in(q) else {
        return q;
    };
    let x = layout.totals_at(table, 2 * visit.node, left);
    moved(
        q,
        Step::C3R {
            visit,
            left,
            right,
            puts: x.puts,
            takes: x.takes,
        },
    )
}

// C3R: those of the right child's block at the end that C2 found are added.
pub fn step_c3r(table: &[u32], layout: &Layout, q: Process) -> Process
    requires { (q.steps < 65536) × ((w : Visit) (l r puts takes : ℕ) → step_in q.status ≡ Step.C3R w l r puts takes →
        Sums layout.now table.now w r puts takes) }
    ensures { (number : ℕ) → StepsByTable (λ P. (w : Visit) (l r puts takes : ℕ) → P (Step.C3R w l r puts takes)) layout.now number table.now table.now q result }
{
    let Step::C3R {
        visit,
        left,
        right,
        puts,
        takes,
    } = step_in(q)
    else {
        return q;
    };
    let y = layout.totals_at(table, 2 * visit.node + 1, right);
    moved(
        q,
        Step::C3N {
            visit,
            left,
            right,
            puts: puts + y.puts,
            takes: takes + y.takes,
        },
    )
}

// The size of a root block with these totals, after a block with the totals `old` and this size. Takes of an empty
// queue take nothing, so it is never below 0: the test comes before the difference.
fn root_size(old: Totals, size: u32, puts: u32, takes: u32) -> u32
    requires { (old.puts ≤ puts) × (old.takes ≤ takes) × (size < 65536) × (puts < 65536) }
    ensures { (b : Block) → old ≡ totals_of b → size ≡ b.size → result ≡ root_size b puts takes }
{
    let held = size + (puts - old.puts);
    let taken = takes - old.takes;
    if held < taken {
        return 0;
    }
    held - taken
}

// The size of the block that C3N makes, where `old` are the totals of the block before. Below the root there is none,
// and none is read.
fn size_of(table: &[u32], layout: &Layout, w: Visit, old: Totals, puts: u32, takes: u32) -> u32
    requires { Decides layout.now table.now w puts takes × (old ≡ totals_of (block_at layout.now table.now w.node (w.head - 1))) }
    ensures { (l r : ℕ) → result ≡ (built w.node (block_at layout.now table.now w.node (w.head - 1)) l r puts takes).size }
{
    if w.node == 1 {
        let size = layout.size_at_root(table, w.head - 1);
        return root_size(old, size, puts, takes);
    }
    0
}

// Whether a block with these totals would add nothing to the one before it, whose totals are `old`.
fn same_totals(puts: u32, takes: u32, old: Totals) -> bool
    ensures { (b : Block) → old ≡ totals_of b → result ≡ same_totals puts takes b }
{
    puts == old.puts && takes == old.takes
}

// C3N decides by the node's block before the head: whether a block with the totals in hand would add nothing to it. A
// process at another step has none to add.
pub fn adds_nothing(table: &[u32], layout: &Layout, q: Process) -> bool
    requires { (w : Visit) (l r puts takes : ℕ) → step_in q.status ≡ Step.C3N w l r puts takes → Decides layout.now table.now w puts takes }
    ensures { Decided layout.now table.now q result }
{
    let Step::C3N {
        visit,
        puts,
        takes,
        ..
    } = step_in(q)
    else {
        return true;
    };
    let old = layout.totals_at(table, visit.node, visit.head - 1);
    same_totals(puts, takes, old)
}

// C3N, where the block would add nothing: it is not written, for the operation is in a block of the node already.
pub fn step_c3n_up(q: Process) -> Process
    requires { q.steps < 65536 }
    ensures { GoesFromC3N (λ w l r puts takes. above_of w.node) q result }
{
    let Step::C3N { visit, .. } = step_in(q) else {
        return q;
    };
    moved(q, above(visit.node))
}

// C3N, where it would add something: C4 is to write it.
pub fn step_c3n_on(table: &[u32], layout: &Layout, q: Process) -> Process
    requires { (q.steps < 65536) × ((w : Visit) (l r puts takes : ℕ) → step_in q.status ≡ Step.C3N w l r puts takes → Decides layout.now table.now w puts takes) }
    ensures { GoesFromC3N (λ w l r puts takes. Step.C4 w (built w.node (block_at layout.now table.now w.node (w.head - 1)) l r puts takes)) q result }
{
    let Step::C3N {
        visit,
        left,
        right,
        puts,
        takes,
    } = step_in(q)
    else {
        return q;
    };
    let old = layout.totals_at(table, visit.node, visit.head - 1);
    let size = size_of(table, layout, visit, old, puts, takes);
    let new = Built {
        left,
        right,
        puts,
        takes,
        size,
    };
    moved(q, Step::C4 { visit, built: new })
}
