// The delivery desk's call, as a static library for programs in C and Rust: the one of crate desk.
#![tactic(auto)]

ghost use Rattle.std.specs.Prelude.{◌≡◌};
ghost use Rattle.record.specs.StepRecords.{step_records};
ghost use Rattle.desk_rules.specs.Desk.{desk};
ghost use Rattle.desk_rules.specs.Deliveries.{DeliversInOrder};
ghost use Rattle.desk.specs.Exported.{desk_exported};

use desk::DeskDelivery;

// The delivery of the terms that the finished takes of a list received.
#[unsafe(no_mangle)]
pub extern "C" fn desk_deliver(
    p: u32,
    l: u32,
    licensed: u32,
    records: &[u8],
    table: &mut [u32],
    output: &mut [u8],
) -> DeskDelivery
    ensures rules { desk_exported result table.new output.new ≡ desk p l licensed records.now table.old output.old }
    ensures order { result.refusal ≡ 0 → DeliversInOrder p l (step_records records.now) table.new result.count output.new }
{
    desk::exports::desk_deliver(p, l, licensed, records, table, output)
}
