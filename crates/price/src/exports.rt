// The call as programs in C and Rust have it: crate price_c exports it.
ghost use Rattle.std.specs.Prelude.{◌≡◌};
ghost use Rattle.price.specs.Sheet.{bands};
ghost use Rattle.price.specs.Price.{price_deliveries};
ghost use Rattle.price.specs.Exact.{Exact};
ghost use Rattle.price.specs.Returned.{price_returned};

use crate::PriceTotal;
use crate::refusal::price_refusal;
use crate::total::total_price;

// What deliveries 1 to count cost by a sheet.
pub fn price_deliveries(count: u32, sheet: &[u8]) -> PriceTotal
    ensures rules { price_returned result ≡ price_deliveries count sheet.now }
    ensures exact { result.refusal ≡ 0 → Exact (bands sheet.now) count result.cents result.remainder }
{
    if let Err(why) = price_refusal(count, sheet) {
        return PriceTotal {
            refusal: why.into(),
            cents: 0,
            remainder: 0,
        };
    }
    let total = total_price(count, sheet);
    PriceTotal {
        refusal: 0,
        cents: total / 100,
        remainder: total % 100,
    }
}
