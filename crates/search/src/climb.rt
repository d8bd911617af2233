// From an operation's leaf up to its root block.
ghost use Rattle.std.specs.Prelude.{◌≡◌};
ghost use Rattle.tree.specs.declared.Kind.TheVariants.{Takes};
ghost use Rattle.search.specs.Clauses.Stands.{Stands, StandsOf, RootBlockIs, StandsAt};
ghost use Rattle.search.specs.Clauses.Climbing.{Ascends, FirstAbove, Beside, beside_of};

use crate::Standing;
use crate::places::first_place;
use node_parts::heads::head_of;
use table::layout::Layout;
use tree::LEFT_WORD;

// The block of v's parent that holds v's block `place`: the first whose end towards v reaches it. Super of v's
// block is a guess only: the parent's head may have been raised after it was read.
fn holder(heads: &[u32], table: &[u32], layout: &Layout, v: u32, place: u32) -> u32
    requires { Ascends layout.now heads.now table.now v place }
    ensures { FirstAbove layout.now heads.now table.now v place result }
{
    let last = head_of(heads, v / 2) - 1;
    let guess = layout.block_at(table, v, place).superblock;
    first_place(
        layout.part(table, v / 2),
        LEFT_WORD + (v % 2) as usize,
        last,
        place,
        guess,
    )
}

// How many takes of v's sibling, from its first block on, come before v's in block b of the parent. In a block the left
// child's come first, so they are those up to the sibling's end in the block before b if v is on the left, and in b if
// v is on the right.
fn beside(table: &[u32], layout: &Layout, v: u32, b: u32) -> u32
    requires { Beside layout.now table.now v b }
    ensures { result ≡ beside_of layout.now table.now Takes v b }
{
    if v % 2 == 0 {
        let end = layout.block_at(table, v / 2, b - 1).right;
        return layout.block_at(table, v + 1, end).takes;
    }
    let end = layout.block_at(table, v / 2, b).left;
    layout.block_at(table, v - 1, end).takes
}

// The root block of operation `serial` of process k, found from its leaf up to the root, which is node 1. The answer of
// a put needs no more than this: it is spared the reads that counting takes, so it is no part of `standing`.
pub fn root_block(heads: &[u32], table: &[u32], layout: &Layout, k: u32, serial: u32) -> u32
    requires { Stands layout.now heads.now table.now k serial }
    ensures { RootBlockIs layout.now table.now k serial result }
{
    let mut v = layout.leaf_of(k);
    let mut place = serial;
    while v != 1 {
        place = holder(heads, table, layout, v, place);
        v = v / 2;
    }
    place
}

// Where operation `serial` of process k, a take, stands among the takes: the same climb, with a count. The number
// counts v's takes from its first block on. Counted so, a leaf's is its block's total, the parent's is v's and what
// comes before from the sibling, and only the root's blocks before the operation's own are taken off. Takes alone are
// counted, since nothing asks for the number of a put in its block.
pub fn standing(heads: &[u32], table: &[u32], layout: &Layout, k: u32, serial: u32) -> Standing
    requires { StandsOf Takes layout.now heads.now table.now k serial }
    ensures { StandsAt layout.now table.now Takes k serial result }
{
    let mut v = layout.leaf_of(k);
    let mut place = serial;
    let mut number = layout.block_at(table, v, serial).takes;
    while v != 1 {
        let b = holder(heads, table, layout, v, place);
        number = number + beside(table, layout, v, b);
        v = v / 2;
        place = b;
    }
    let before = layout.block_at(table, 1, place - 1).takes;
    Standing {
        block: place,
        rank: number - before,
    }
}
