// The price sheet's call, as a static library for programs in C and Rust: the one of crate price.
#![tactic(auto)]

ghost use Rattle.std.specs.Prelude.{◌≡◌};
ghost use Rattle.price.specs.Sheet.{bands};
ghost use Rattle.price.specs.Price.{price_deliveries};
ghost use Rattle.price.specs.Exact.{Exact};
ghost use Rattle.price.specs.Returned.{price_returned};

use price::PriceTotal;

// What deliveries 1 to count cost by a sheet.
#[unsafe(no_mangle)]
pub extern "C" fn price_deliveries(count: u32, sheet: &[u8]) -> PriceTotal
    ensures rules { price_returned result ≡ price_deliveries count sheet.now }
    ensures exact { result.refusal ≡ 0 → Exact (bands sheet.now) count result.cents result.remainder }
{
    price::exports::price_deliveries(count, sheet)
}
