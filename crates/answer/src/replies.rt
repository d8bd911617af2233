// What a take replies, from where it stands.
ghost use Rattle.std.specs.Prelude.{◌≡◌};
ghost use Rattle.base.specs.Clauses.Some.{Some};
ghost use Rattle.calls.specs.Answer.{take_reply};
ghost use Rattle.answer.specs.Clauses.Answering.{TakeAt};

use crate::margin::margin;
use record::Reply;
use search::find::put_value;
use table::layout::Layout;

// The reply of the i-th take of root block b. The root is node 1. Where the margin is not below 0, the put with that
// number is in the root blocks up to b.
pub fn take_reply(table: &[u32], layout: &Layout, b: u32, i: u32) -> Reply
    requires { Some (TakeAt layout.now table.now b i) }
    ensures { result ≡ take_reply layout.now table.now b i }
{
    let before = layout.block_at(table, 1, b - 1);
    let here = layout.block_at(table, 1, b);
    if margin(before.size, here.puts - before.puts, i) < 0 {
        return Reply::Nothing;
    }
    let number = i + before.puts - before.size;
    let value = put_value(table, layout, b, number);
    Reply::Value(value)
}
