// The tests of a call, in their order.
ghost use Rattle.std.specs.Prelude.{◌≡◌};
ghost use Rattle.price.specs.Price.{price_number, price_refusal};

use crate::PriceRefusal;
use crate::sheet::{bands_allowed, prices_allowed};

// The paper's number of a refusal.
impl From<PriceRefusal> for u32 {
    ghost from_gives = { λ why n. n ≡ price_number why };

    #[tactic(auto, unfolding(crate::specs::Price::price_number))]
    fn from(why: PriceRefusal) -> u32 {
        match why {
            PriceRefusal::Count => 2,
            PriceRefusal::SheetTorn => 4,
            PriceRefusal::Bands => 15,
            PriceRefusal::PriceTooHigh => 16,
        }
    }
}

// The first test that fails, if one does.
#[tactic(auto, unfolding(crate::specs::Price::price_refusal, crate::specs::Price::most_deliveries, crate::specs::Sheet::band_size))]
pub fn price_refusal(count: u32, sheet: &[u8]) -> Result<(), PriceRefusal>
    ensures { result ≡ price_refusal count sheet.now }
{
    if 4000 < count {
        return Err(PriceRefusal::Count);
    }
    let (_, rest) = sheet.as_chunks::<8>();
    if !rest.is_empty() {
        return Err(PriceRefusal::SheetTorn);
    }
    if !bands_allowed(sheet) {
        return Err(PriceRefusal::Bands);
    }
    if !prices_allowed(sheet) {
        return Err(PriceRefusal::PriceTooHigh);
    }
    Ok(())
}
