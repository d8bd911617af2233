// The price of deliveries, by bands and not by deliveries.
ghost use Rattle.std.specs.Prelude.{Ok, ◌≡◌, ◌+◌, ◌-◌, ◌*◌, ◌≤◌, ◌<◌};
ghost use Rattle.price.specs.Sheet.{bands};
ghost use Rattle.price.specs.Price.{total_price, price_refusal};

use crate::Band;

// A total and the price of the deliveries after `from`, up to and with `to`, of a band, in hundredths of a cent.
fn with_band(total: u32, from: u32, to: u32, here: Band) -> u32
    requires { (from ≤ to) × (total + (to - from) * here.price < 4294967296) }
    ensures { result ≡ total + (to - from) * here.price }
{
    total + (to - from) * here.price
}

// The price of deliveries 1 to count, in hundredths of a cent: at most 4,000 × 1,000,000, which a word holds.
pub fn total_price(count: u32, sheet: &[u8]) -> u32
    requires { price_refusal count sheet.now ≡ Ok tt }
    ensures { result ≡ total_price (bands sheet.now) count }
{
    let (last, others) = sheet.as_chunks::<8>().0.split_last().unwrap();
    let mut priced = 0;
    let mut total = 0;
    for bytes in others {
        let here = Band::from(*bytes);
        let end = here.last.min(count);
        total = with_band(total, priced, end, here);
        priced = end;
    }
    // the last band has all that are left, whatever its end
    with_band(total, priced, count, Band::from(*last))
}
