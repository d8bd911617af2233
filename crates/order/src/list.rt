// The root order, written as order records: root block by root block, each opened down to the leaves.
ghost use Rattle.std.specs.Prelude.{◌≡◌, ◌++◌, ◌-◌, ◌≤◌, length, drop};
ghost use mathlib.Core.List.{flat_map};
ghost use Rattle.base.specs.Between.{between};
ghost use Rattle.base.specs.Clauses.Stored.{Stored};
ghost use Rattle.tree.specs.Clauses.Access.{HasPlace};
ghost use Rattle.order.specs.OrderList.{kind_number, order_list};
ghost use Rattle.order.specs.Clauses.Opens.{leaf_at, adds_to, BlockOf, RangeOf, RootOf, LastRootIs};
ghost use Rattle.order.specs.Clauses.Listed.{Room, block_records, root_records};

use crate::{Listing, Subtree};
use node_parts::blocks;
use record::OrderRecord;
use table::layout::Layout;
use tree::Kind;

// The number of a kind in an order record. It is no From of the kind: crate tree, which has it, knows no records.
fn kind_number(kind: Kind) -> u8
    ensures { result ≡ kind_number kind }
{
    match kind {
        Kind::Puts => 1,
        Kind::Takes => 2,
    }
}

// Whether block b of a leaf adds an operation of the kind. Only the totals tell: a put of 0 leaves the same end left as
// a take.
fn adds(table: &[u32], layout: &Layout, kind: Kind, leaf: u32, b: u32) -> bool
    requires { (1 ≤ b) × HasPlace layout.now table.now leaf (b - 1) × HasPlace layout.now table.now leaf b }
    ensures { result ≡ adds_to layout.now table.now kind leaf b }
{
    let before = blocks::total(kind, layout.block_at(table, leaf, b - 1));
    let here = blocks::total(kind, layout.block_at(table, leaf, b));
    before < here
}

// The operation that a leaf's block adds, if it is of the kind. The process of leaf v is v less the number of
// processes. Returned here and below is the index after what was stored; the whole output and an index go along, since
// what is stored is said of the whole (`Stored`).
fn list_leaf(
    table: &[u32],
    layout: &Layout,
    list: Listing,
    leaf: u32,
    b: u32,
    out: &mut [u8],
    at: usize,
) -> usize
    requires { Room (BlockOf layout.now table.now (leaf_at leaf) b)
        (block_records layout.now table.now list (leaf_at leaf) b) at (length out.old) }
    ensures { Stored out.old at (block_records layout.now table.now list (leaf_at leaf) b) out.new result }
{
    if adds(table, layout, list.kind, leaf, b) {
        let record = OrderRecord {
            process: (leaf - layout.processes() as u32) as u8,
            kind: kind_number(list.kind),
            serial: b as u16,
            block: list.block,
        };
        out[at..at + 8].copy_from_slice(&<[u8; 8]>::from(record));
        return at + 8;
    }
    at
}

// A child of a node, by its number: it is one lower.
fn child(top: Subtree, node: u32) -> Subtree
    requires { 1 ≤ top.height }
    ensures { result ≡ record { node = node; height = top.height - 1 } }
{
    Subtree {
        node: node,
        height: top.height - 1,
    }
}

// The operations of a present block, opened down to the leaves: those of its left subblocks, then those of the right. A
// child is lower than its node, so this ends.
#[cycle(list_block_list_range)]
fn list_block(
    table: &[u32],
    layout: &Layout,
    list: Listing,
    top: Subtree,
    b: u32,
    out: &mut [u8],
    at: usize,
) -> usize
    requires { Room (BlockOf layout.now table.now top b)
        (block_records layout.now table.now list top b) at (length out.old) }
    ensures { Stored out.old at (block_records layout.now table.now list top b) out.new result }
{
    if top.height == 0 {
        return list_leaf(table, layout, list, top.node, b, out, at);
    }
    let old = layout.block_at(table, top.node, b - 1);
    let new = layout.block_at(table, top.node, b);
    let left = child(top, 2 * top.node);
    let right = child(top, 2 * top.node + 1);
    let next = list_range(table, layout, list, left, old.left, new.left, out, at);
    list_range(table, layout, list, right, old.right, new.right, out, next)
}

// The operations of a node's blocks after `from`, up to and with `to`, in place order, by place: a block is found by its
// node and place, and blocks are no slice of anything. These are a block's subblocks on one side.
#[cycle(list_block_list_range)]
fn list_range(
    table: &[u32],
    layout: &Layout,
    list: Listing,
    top: Subtree,
    from: u32,
    to: u32,
    out: &mut [u8],
    at: usize,
) -> usize
    requires { Room (RangeOf layout.now table.now top from to)
        (flat_map (block_records layout.now table.now list top) (between from to)) at (length out.old) }
    ensures { Stored out.old at
        (flat_map (block_records layout.now table.now list top) (between from to)) out.new result }
{
    let mut end = at;
    for b in from..to {
        end = list_block(table, layout, list, top, b + 1, out, end);
    }
    end
}

// The operations of root block b: its puts, then its takes.
fn list_root(table: &[u32], layout: &Layout, b: u32, out: &mut [u8], at: usize) -> usize
    requires { Room (RootOf layout.now table.now b) (root_records layout.now table.now b) at (length out.old) }
    ensures { Stored out.old at (root_records layout.now table.now b) out.new result }
{
    let root = Subtree {
        node: 1,
        height: layout.height(),
    };
    let puts = Listing {
        kind: Kind::Puts,
        block: b,
    };
    let takes = Listing {
        kind: Kind::Takes,
        block: b,
    };
    let next = list_block(table, layout, puts, root, b, out, at);
    list_block(table, layout, takes, root, b, out, next)
}

// All root blocks in order. What stands in the output past the list stays.
pub fn write_order(table: &[u32], layout: &Layout, last: u32, out: &mut [u8])
    requires { Room (LastRootIs layout.now table.now last) (order_list layout.now table.now) 0 (length out.old) }
    ensures { out.new ≡ order_list layout.now table.now ++ drop (length (order_list layout.now table.now)) out.old }
{
    let mut end = 0;
    for b in 0..last {
        end = list_root(table, layout, b + 1, out, end);
    }
}
