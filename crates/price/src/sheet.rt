// The bands of a sheet, and whether its ends and its prices are allowed.
ghost use Rattle.std.specs.Prelude.{◌≡◌};
ghost use Rattle.price.specs.Sheet.{band, bands, bands_allowed, prices_allowed};

use crate::Band;

// The band that eight bytes hold.
impl From<[u8; 8]> for Band {
    ghost from_gives = { λ bytes b. b ≡ band bytes };

    #[tactic(auto, unfolding(crate::specs::Sheet::band, encoding::specs::Bytes::number_of))]
    fn from(bytes: [u8; 8]) -> Band {
        let [a, b, c, d, e, f, g, h] = bytes;
        Band {
            last: u32::from_le_bytes([a, b, c, d]),
            price: u32::from_le_bytes([e, f, g, h]),
        }
    }
}

// Whether the bands are 1 to 8, and each end is below the next.
pub fn bands_allowed(sheet: &[u8]) -> bool
    ensures { result ≡ bands_allowed (bands sheet.now) }
{
    let (bands, _) = sheet.as_chunks::<8>();
    (1..=8).contains(&bands.len())
        && bands.is_sorted_by(|before, here| Band::from(*before).last < Band::from(*here).last)
}

// Whether no price is too high.
pub fn prices_allowed(sheet: &[u8]) -> bool
    ensures { result ≡ prices_allowed (bands sheet.now) }
{
    let (bands, _) = sheet.as_chunks::<8>();
    bands
        .iter()
        .all(|bytes| Band::from(*bytes).price <= 1000000)
}
