// The terms in the order of a list.
ghost use Rattle.std.specs.Prelude.{◌≡◌, ◌≤◌, length, take, map};
ghost use Rattle.base.specs.Members.{All};
ghost use Rattle.record.specs.declared.OrderRecord.{OrderRecord};
ghost use Rattle.record.specs.ReadOrders.{read_order};
ghost use Rattle.desk_terms.specs.Clauses.Slots.{HasSlot, collected};

use crate::entries::is_entry;
use crate::receive::slot_of;
use record::OrderRecord;

// Collects the terms that the operations of some order records received, in their order, and returns how many they are.
pub fn collect(order: &[[u8; 8]], l: u32, received: &[u32], terms: &mut [u32]) -> usize
    requires room { (l ≤ 500) × (length order.now ≤ length terms.old) }
    requires slots { All (λ (x : OrderRecord). HasSlot l (length received.now) x.process x.serial) (map read_order order.now) }
    ensures { (result ≤ length terms.new) × (take result terms.new ≡ collected l received.now (map read_order order.now)) }
{
    let mut count = 0;
    for bytes in order {
        let x = OrderRecord::from(*bytes);
        let slot = slot_of(l, x.process as u32, x.serial as u32);
        let value = received[slot];
        if is_entry(value) {
            terms[count] = value - 2147483648;
            count += 1;
        }
    }
    count
}
