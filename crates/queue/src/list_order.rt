// List the order.
ghost use Rattle.std.specs.Prelude.{◌≡◌, true, ◌*◌, length, take};
ghost use Rattle.tree.specs.Layout.{words_needed};
ghost use Rattle.calls.specs.Refusals.{accepted, call_refusal};
ghost use Rattle.tree.specs.Shape.{shape_for};
ghost use Rattle.calls.specs.ListOrder.{list_order};
ghost use Rattle.queue.specs.Left.{list_left};
ghost use Rattle.queue.specs.Clauses.ListingCall.{ListingCall, list_from};

use crate::play_all::play_all;
use calls::Refusal;
use order::list::write_order;
use order::roots::{last_root, list_length};
use refusals::before::of_call;
use table::layout::{Layout, Tree};

// The list of the root order that a played table has, written to the output if it is not longer than that; its length
// in bytes is returned. The first 2p heads are those of the nodes.
fn write_list(
    p: u32,
    l: u32,
    heads: &[u32],
    table: &[u32],
    output: &mut [u8],
) -> Result<usize, Refusal>
    requires { ListingCall p l (take (2 * p) heads.now) (take (words_needed (shape_for p l)) table.now) }
    ensures { list_left result table.now output.new
        ≡ list_from (shape_for p l) (take (words_needed (shape_for p l)) table.now) table.now output.old }
{
    let tree = Tree::new(p, l);
    let layout = Layout::new(tree);
    let words = &table[..tree.words_needed()];
    let last = last_root(&heads[..2 * p as usize], words, &layout);
    let length = list_length(words, &layout, last);
    if output.len() < length {
        return Err(Refusal::OutputShort);
    }
    write_order(words, &layout, last, output);
    Ok(length)
}

// List the order, of a call that is not turned down.
fn list_accepted(
    p: u32,
    l: u32,
    records: &[u8],
    table: &mut [u32],
    output: &mut [u8],
) -> Result<usize, Refusal>
    requires { accepted (call_refusal p l (length table.old) (length records.now)) ≡ true }
    ensures { list_left result table.new output.new ≡ list_order p l records.now table.old output.old }
{
    let mut heads = [1u32; 16];
    let o = play_all(p, l, records, &mut heads, table, &records[..0]);
    o.ended?;
    write_list(p, l, &heads, table, output)
}

// Plays step records as Run does, without answers, and lists the root order that they leave; it returns the list's
// length in bytes. What it returns and all that it leaves in the table and in the output is what the rules say.
#[tactic(auto, unfolding(calls::specs::Refusals::accepted))]
pub fn list_order(
    p: u32,
    l: u32,
    records: &[u8],
    table: &mut [u32],
    output: &mut [u8],
) -> Result<usize, Refusal>
    ensures { list_left result table.new output.new ≡ list_order p l records.now table.old output.old }
{
    of_call(p, l, table.len(), records.len())?;
    list_accepted(p, l, records, table, output)
}
