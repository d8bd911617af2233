// The last root block, and how long the list of the root order is.
ghost use Rattle.std.specs.Prelude.{◌≡◌, ◌≤◌, length};
ghost use Rattle.base.specs.Clauses.Some.{Some};
ghost use Rattle.tree.specs.Order.{last_root};
ghost use Rattle.tree.specs.Clauses.SoundTree.{SoundTree};
ghost use Rattle.order.specs.OrderList.{order_list};
ghost use Rattle.order.specs.Clauses.Opens.{LastRootIs};

use node_parts::heads;
use table::layout::Layout;

// The last present root block, 0 if there is none. It stands at the root's head, where no process has raised the head
// past it yet, or else just before.
pub fn last_root(heads: &[u32], table: &[u32], layout: &Layout) -> u32
    requires { SoundTree layout.now heads.now table.now }
    ensures { result ≡ last_root layout.now table.now }
{
    let head = heads::head_of(heads, 1);
    if layout.absent_at(table, 1, head) {
        return head - 1;
    }
    head
}

// The bytes of the list: eight for each operation that the last root block counts.
pub fn list_length(table: &[u32], layout: &Layout, last: u32) -> usize
    requires { Some (LastRootIs layout.now table.now last) }
    ensures { (result ≤ 32000) × (result ≡ length (order_list layout.now table.now)) }
{
    let block = layout.block_at(table, 1, last);
    8 * (block.puts as usize + block.takes as usize)
}
