// The call as programs in C and Rust have it: crate desk_c exports it.
ghost use Rattle.std.specs.Prelude.{◌≡◌};
ghost use Rattle.record.specs.StepRecords.{step_records};
ghost use Rattle.desk_rules.specs.Desk.{desk};
ghost use Rattle.desk_rules.specs.Deliveries.{DeliversInOrder};
ghost use Rattle.desk.specs.Exported.{desk_exported};

use crate::DeskDelivery;
use crate::deliver::deliver;

// The delivery of the terms that the finished takes of a list received.
pub fn desk_deliver(
    p: u32,
    l: u32,
    licensed: u32,
    records: &[u8],
    table: &mut [u32],
    output: &mut [u8],
) -> DeskDelivery
    ensures rules { desk_exported result table.new output.new ≡ desk p l licensed records.now table.old output.old }
    ensures order { result.refusal ≡ 0 → DeliversInOrder p l (step_records records.now) table.new result.count output.new }
{
    match deliver(p, l, licensed, records, table, output) {
        Ok(count) => DeskDelivery {
            refusal: 0,
            count: count as u64,
        },
        Err(why) => DeskDelivery {
            refusal: why.into(),
            count: 0,
        },
    }
}
