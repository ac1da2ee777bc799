// The values between two bounds, counted.
ghost use Rattle.std.specs.Prelude.{◌≡◌, ℕ, ◌≤◌, length};
ghost use Rattle.grids.specs.Order.{rank};
ghost use Rattle.bounds.specs.Bounds.{between};
ghost use Rattle.bounds.specs.Narrowed.{Inside, removed_by};

// How many values rank within low to high.
fn span(low: u8, high: u8) -> u32
    requires { rank low ≤ rank high }
    ensures { (top : ℕ) → low ≤ top → high ≤ top → result ≡ length (between top low high) }
{
    u32::from(high - low) + 1
}

// How many values new bounds within the old ones leave out, summed over the cells.
pub fn removed(low: &[u8], high: &[u8], lows: &[u8], highs: &[u8]) -> u32
    requires { (length low.now ≤ 128) × Inside (length low.now) 15 low.now high.now lows.now highs.now }
    ensures { (top : ℕ) → Inside (length low.now) top low.now high.now lows.now highs.now → result ≡ removed_by (length low.now) top low.now high.now lows.now highs.now }
{
    let mut count = 0;
    // four slices side by side: an index says so in fewer words than three zips
    for k in 0..low.len() {
        count += span(low[k], high[k]) - span(lows[k], highs[k]);
    }
    count
}
