// The terms of a list of which the queue refuses nothing: run for its answers, collected in root order, and sent.
ghost use Rattle.std.specs.Prelude.{◌≡◌, true, length, replicate};
ghost use Rattle.record.specs.StepRecords.{step_records};
ghost use Rattle.tree.specs.Shape.{shape_for};
ghost use Rattle.calls.specs.Refusals.{accepted as is_accepted, call_refusal};
ghost use Rattle.calls.specs.ListOrder.{play_all};
ghost use Rattle.desk_rules.specs.Desk.{served, desk_served};
ghost use Rattle.desk_listed.specs.Left.{desk_left};
ghost use Rattle.desk_listed.specs.Clauses.Deliverable.{ReceivedAll, Listed};

use desk_rules::DeskRefusal;
use desk_terms::collect::collect;
use desk_terms::receive::receive;
use desk_terms::send::send;
use queue::exports::otq_run;

// Runs a list for its answers, and stores in the slot of each operation the value that it received. There are at most
// 4,000 operations, so fixed buffers hold what they leave: the library has no heap.
fn receive_all(p: u32, l: u32, records: &[u8], table: &mut [u32], received: &mut [u32])
    requires call { is_accepted (call_refusal p l (length table.old) (length records.now)) ≡ true }
    requires zeros { received.old ≡ replicate 4000 0 }
    ensures { ReceivedAll p l records.now table.old table.new received.new }
{
    let mut answers = [0u8; 64000];
    let ran = otq_run(p, l, records, table, &mut answers);
    let (records, _) = answers.as_chunks::<16>();
    receive(&records[..ran.answers as usize], l, received);
}

// Delivers the terms of a list of which the queue refuses nothing, and returns how many; `order` is its root order. The
// library has no heap, so values and terms have fixed arrays.
pub fn deliver_listed(
    p: u32,
    l: u32,
    records: &[u8],
    table: &mut [u32],
    order: &[u8],
    output: &mut [u8],
) -> Result<usize, DeskRefusal>
    requires { Listed p l records.now (length table.old) order.now }
    ensures { desk_left result table.new output.new
        ≡ desk_served (shape_for p l) (served (play_all (shape_for p l) (step_records records.now))) table.old output.old }
{
    let mut received = [0u32; 4000];
    receive_all(p, l, records, table, &mut received);
    let mut terms = [0u32; 4000];
    let (order, _) = order.as_chunks::<8>();
    let count = collect(order, l, &received, &mut terms);
    if output.len() < 4 * count {
        return Err(DeskRefusal::OutputShort);
    }
    send(&terms[..count], output);
    Ok(count)
}
