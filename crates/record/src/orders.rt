// Order records: read from their bytes and written as them.
ghost use Rattle.std.specs.Prelude.{◌≡◌};
ghost use Rattle.record.specs.OrderRecords.{order_bytes};
ghost use Rattle.record.specs.ReadOrders.{read_order};

use crate::OrderRecord;

impl From<[u8; 8]> for OrderRecord {
    ghost from_gives = { λ bytes x. x ≡ read_order bytes };

    fn from(bytes: [u8; 8]) -> OrderRecord {
        OrderRecord {
            process: bytes[0],
            kind: bytes[1],
            serial: u16::from_le_bytes([bytes[2], bytes[3]]),
            block: u32::from_le_bytes([bytes[4], bytes[5], bytes[6], bytes[7]]),
        }
    }
}

impl From<OrderRecord> for [u8; 8] {
    ghost from_gives = { λ x bytes. bytes ≡ order_bytes x };

    fn from(x: OrderRecord) -> [u8; 8] {
        let [s0, s1] = x.serial.to_le_bytes();
        let [b0, b1, b2, b3] = x.block.to_le_bytes();
        [x.process, x.kind, s0, s1, b0, b1, b2, b3]
    }
}
