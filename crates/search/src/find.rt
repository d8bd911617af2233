// From a put's number in the root order down to its leaf, where its value is.
ghost use Rattle.std.specs.Prelude.{◌≡◌};
ghost use Rattle.base.specs.Clauses.Some.{Some};
ghost use Rattle.search.specs.Clauses.Numbered.{Numbered, ValueAt};
ghost use Rattle.search.specs.Clauses.Descending.{Finds, FoundIn, Descends, descent_of};

use crate::places::first_place;
use table::layout::Layout;
use tree::PUTS_WORD;

// A put in a child: the child, the last place there that can have it, and its number there.
#[derive(Clone, Copy)]
struct Descent {
    node: u32,
    last: u32,
    number: u32,
}

// Where put number n of node v, which is in v's block b, is in v's children. A number counts a node's puts from its
// first block on. The left child's puts up to its end in b come before the right child's of b.
fn descend(table: &[u32], layout: &Layout, v: u32, b: u32, n: u32) -> Descent
    requires { Descends layout.now table.now v b n }
    ensures { result ≡ descent_of layout.now table.now v b n }
{
    let here = layout.block_at(table, v, b);
    let before = layout.block_at(table, v, b - 1);
    let left = layout.block_at(table, 2 * v, here.left).puts;
    let right = layout.block_at(table, 2 * v + 1, before.right).puts;
    if n <= left + right {
        return Descent {
            node: 2 * v,
            last: here.left,
            number: n - right,
        };
    }
    Descent {
        node: 2 * v + 1,
        last: here.right,
        number: n - left,
    }
}

// The value of put number n of node v, of the height given, which is in v's block b. A leaf's block has the value in
// its left end. The last subblock is the guess, since most blocks have few.
fn find_put(table: &[u32], layout: &Layout, height: usize, v: u32, b: u32, n: u32) -> u32
    requires { Some (Finds layout.now table.now height v b n) }
    ensures { FoundIn layout.now table.now height v b n result }
{
    if height == 0 {
        return layout.block_at(table, v, b).left;
    }
    let d = descend(table, layout, v, b, n);
    let c = first_place(
        layout.part(table, d.node),
        PUTS_WORD,
        d.last,
        d.number,
        d.last,
    );
    find_put(table, layout, height - 1, d.node, c, d.number)
}

// The value of put number n in root order, which is in the root blocks up to `last`. The root is node 1.
pub fn put_value(table: &[u32], layout: &Layout, last: u32, n: u32) -> u32
    requires { Some (Numbered layout.now table.now last n) }
    ensures { ValueAt layout.now table.now n result }
{
    let b = first_place(layout.part(table, 1), PUTS_WORD, last, n, last);
    find_put(table, layout, layout.height(), 1, b, n)
}
