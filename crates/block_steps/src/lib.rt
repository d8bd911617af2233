// The code of the named steps A, V2, R3, R5 and C4, which read or write blocks and build none: each takes a process and
// gives the process that it becomes. Where no head is read, they hold whatever the heads are. R3 and R5 are alike but for
// the named step that each takes apart, and no parameter stands for a variant.
#![tactic(auto)]

ghost use Rattle.std.specs.Prelude.{true, false, ◌≡◌, List, ℕ, ◌+◌, ◌*◌, ◌-◌, ◌<◌};
ghost use Rattle.tree.specs.Shape.{processes, leaf_of};
ghost use Rattle.tree.specs.Memory.{memory_of};
ghost use Rattle.steps.specs.Rules.{of_child, help as help_of, built, step, go, plus_operation, block_of};
ghost use Rattle.steps.specs.Machine.{is_idle};
ghost use Rattle.stepping.specs.Clauses.Next.{operation_in, step_in, Moves, StepsByTable};
ghost use Rattle.tree.specs.Clauses.Access.{HasPart, HasPlace};
ghost use Rattle.steps.specs.Clauses.Ready.{Adds};

use node_parts::heads::head_of;
use stepping::sequence::{above, advance, after_child, after_refresh};
use stepping::turn::{by_fields, moved, operation_in, step_in};
use steps::{After, Built, Operation, Process, Refresh, Step, Visit};
use table::layout::Layout;
use tree::Block;

// A leaf's next block: the totals of the last one plus this operation, and the number of the record that adds it. A
// take has no value, and a leaf has no children, so their words are 0.
fn plus_operation(number: u32, o: Operation, b: Block) -> Block
    requires { (b.puts < 65536) × (b.takes < 65536) }
    ensures { result ≡ plus_operation number o b }
{
    match o {
        Operation::Put(x) => Block {
            puts: b.puts + 1,
            takes: b.takes,
            superblock: 0,
            left: x,
            right: 0,
            size: 0,
            number,
        },
        Operation::Take => Block {
            puts: b.puts,
            takes: b.takes + 1,
            superblock: 0,
            left: 0,
            right: 0,
            size: 0,
            number,
        },
    }
}

// A: the operation's block at the head of its own leaf, where no other process writes. `number` is that of the record.
pub fn step_a(
    heads: &[u32],
    table: &mut [u32],
    layout: &Layout,
    leaf: u32,
    number: u32,
    q: Process,
) -> Process
    requires steps_bound { (q.steps < 65536) × (is_idle q.status ≡ false) × (step_in q.status ≡ Step.A) }
    requires adds { Adds layout.now heads.now table.old leaf }
    ensures { Moves q result × ((k : ℕ) → leaf ≡ leaf_of layout.now k →
        let m = memory_of table.old heads.now in
        let o = operation_in q.status in
        step layout.now number k o m Step.A
        ≡ go layout.now number k o m (memory_of table.new heads.now) (step_in result.status)) }
{
    let h = head_of(heads, leaf);
    let old = layout.block_at(table, leaf, h - 1);
    let new = plus_operation(number, operation_in(q), old);
    layout.write_at(table, leaf, h, new);
    let w = Visit {
        node: leaf,
        head: h,
        refresh: Refresh::First,
    };
    moved(q, advance(w, After::Up, leaf, h))
}

// V2: super of v's block is set to the parent's head as V1 read it, if it is 0.
pub fn step_v2(table: &mut [u32], layout: &Layout, q: Process) -> Process
    requires { (q.steps < 65536) × ((a : After) (w : Visit) (v h x : ℕ) → step_in q.status ≡ Step.V2 a w v h x →
        HasPlace layout.now table.old v h) }
    ensures { (number : ℕ) → StepsByTable (λ P. (a : After) (w : Visit) (v h x : ℕ) → P (Step.V2 a w v h x)) layout.now number table.old table.new q result }
{
    let Step::V2 {
        after,
        visit,
        node,
        place,
        above,
    } = step_in(q)
    else {
        return q;
    };
    layout.set_super_at(table, node, place, above);
    let visit = by_fields(visit);
    moved(
        q,
        Step::V3 {
            after,
            visit,
            node,
            place,
        },
    )
}

// A child's block at the head that was read is looked at. If it is present it is advanced before the visit goes on, so
// that no refresh leaves it behind.
fn help(table: &[u32], layout: &Layout, w: Visit, a: After, child: u32, c: u32) -> Step
    requires { HasPart layout.now table.now child × (of_child a ≡ true) }
    ensures { (heads : List ℕ) → result ≡ help_of layout.now (memory_of table.now heads) w a child c }
{
    if layout.absent_at(table, child, c) {
        return after_child(a, w);
    }
    advance(w, a, child, c)
}

// R3: the left child's block at the head that was read is looked at.
pub fn step_r3(table: &[u32], layout: &Layout, q: Process) -> Process
    requires { (q.steps < 65536) × ((w : Visit) (c : ℕ) → step_in q.status ≡ Step.R3 w c →
        HasPart layout.now table.now (2 * w.node)) }
    ensures { (number : ℕ) → StepsByTable (λ P. (w : Visit) (c : ℕ) → P (Step.R3 w c)) layout.now number table.now table.now q result }
{
    let Step::R3 { visit, child } = step_in(q) else {
        return q;
    };
    let v = 2 * visit.node;
    moved(q, help(table, layout, visit, After::Right, v, child))
}

// R5: the same of the right child.
pub fn step_r5(table: &[u32], layout: &Layout, q: Process) -> Process
    requires { (q.steps < 65536) × ((w : Visit) (c : ℕ) → step_in q.status ≡ Step.R5 w c →
        HasPart layout.now table.now (2 * w.node + 1)) }
    ensures { (number : ℕ) → StepsByTable (λ P. (w : Visit) (c : ℕ) → P (Step.R5 w c)) layout.now number table.now table.now q result }
{
    let Step::R5 { visit, child } = step_in(q) else {
        return q;
    };
    let v = 2 * visit.node + 1;
    moved(q, help(table, layout, visit, After::Ends, v, child))
}

// The block itself, with the number of the record that writes it. Its super is set later, by an advance.
fn block_of(number: u32, n: Built) -> Block
    ensures { result ≡ block_of number n }
{
    Block {
        puts: n.puts,
        takes: n.takes,
        superblock: 0,
        left: n.left,
        right: n.right,
        size: n.size,
        number,
    }
}

// C4: the block is written if its place is still empty. The refresh has then succeeded. `number` is that of the record.
pub fn step_c4(table: &mut [u32], layout: &Layout, number: u32, q: Process) -> Process
    requires { (q.steps < 65536) × ((w : Visit) (b : Built) → step_in q.status ≡ Step.C4 w b →
        HasPlace layout.now table.old w.node w.head) }
    ensures { StepsByTable (λ P. (w : Visit) (b : Built) → P (Step.C4 w b)) layout.now number table.old table.new q result }
{
    let Step::C4 { visit, built } = step_in(q) else {
        return q;
    };
    let v = visit.node;
    let success = layout.write_if_absent(table, v, visit.head, block_of(number, built));
    moved(
        q,
        advance(visit, after_refresh(visit.refresh, success), v, visit.head),
    )
}
