#![tactic(auto)]
// The bands of a tariff: their sizes, and the band that serves a size.
ghost use Rattle.std.specs.Prelude.{◌≡◌, ◌≤◌, ◌<◌, ◌^◌, map, length};
ghost use Rattle.rules.specs.Lists.{Ascending};
ghost use Rattle.rules.specs.File.{bands as bands_from, after_bands};
ghost use Rattle.rules.specs.Charges.{no_band, band_for};

use arrayvec::ArrayVec;
use bits::Cursor;
use records::{BAND_BITS, Records};
use rules::Band;

#[tactic(auto, unfolding(rules::specs::Charges::no_band))]
fn no_band() -> Band
    ensures { result ≡ no_band }
{
    Band::default()
}

// The bands of a tariff, of which it has at most N: where the first one stands in the file, and their sizes. Every meter of the file looks its band
// up in the sizes, so that they are read from the file once, and not again for each meter.
#[derive(Drop)]
pub struct Bands<const N: usize> {
    pub first: Cursor,
    pub sizes: ArrayVec<u64, N>,
}

impl<const N: usize> Bands<N> {
    ghost use Rattle.bands.specs.Bands.{SizesOf, BandsOf, bands_in};

    // The bands that stand in a file.
    pub fn read(file: &[u8], list: Records) -> Bands<N>
        requires { (list.count ≤ N) × (after_bands list.first.at (bands_from file.now list.count list.first.at) < 2 ^ 32) }
        ensures { BandsOf file.now list.count result × (result.first ≡ list.first) }
    {
        let first = list.first;
        let mut sizes = ArrayVec::new();
        for k in 0..list.count {
            let band = first.past(k, BAND_BITS);
            sizes.push(records::band_size(file, band));
        }
        Bands { first, sizes }
    }

    // The band that serves a tariff size, of at least one band. Their sizes ascend, and only the band that serves is read from the file: the last one
    // that is not above the size, or the first one.
    #[tactic(auto, unfolding(rules::specs::Charges::band_for))]
    pub fn serving(&self, file: &[u8], size: u64) -> Band
        requires le_count { (1 ≤ length self.now.sizes.items) × (after_bands self.now.first.at (bands_in file.now self.now) < 2 ^ 32) × Ascending 0 (map (λ b. b.size) (bands_in file.now self.now)) }
        requires sizes_of { SizesOf file.now (length self.now.sizes.items) self.now.first.at self.now.sizes.items }
        ensures { result ≡ band_for (bands_in file.now self.now) size }
    {
        if size == 0 {
            return no_band();
        }
        let later = &self.sizes.as_slice()[1..];
        let k = later.partition_point(|s| *s <= size);
        let band = self.first.past(k as u64, BAND_BITS);
        records::band(file, band).value
    }
}
