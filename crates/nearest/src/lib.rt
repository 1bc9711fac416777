// The peak of a word: its halves or its quarters are packed, transformed together and searched. One call of the transform serves both, so
// that the compiler takes it into the reading.
#![tactic(auto)]

ghost use Rattle.std.specs.Prelude.{true, ◌≡◌, ◌*◌, ◌^◌, ◌≤◌, length};
ghost use Rattle.area.specs.Area.{Bits, SameFront, word_of};
ghost use Rattle.hadamard.specs.Correlation.{values, correlation};
ghost use Rattle.peaks.specs.Peaks.{IsPeak};
ghost use Rattle.nearest.specs.Nearest.{quartered, part_exponent, Packable, PackedAfter, Searchable, places_of, searched};

use peaks::Peak;

// Whether a word of exponent m is packed by quarters.
fn by_quarters(m: usize) -> bool
    ensures { result ≡ quartered m }
{
    if 3 < m { m < 8 } else { false }
}

// The exponent of a part of the word.
fn part_exponent(quarters: bool, m: usize) -> usize
    requires { (1 ≤ m) × (quarters ≡ true → 2 ≤ m) }
    ensures { result ≡ part_exponent quarters m }
{
    if quarters { m - 2 } else { m - 1 }
}

// The signs of the word's parts of q bits, packed, after the word.
fn pack(quarters: bool, q: usize, area: &mut [i32])
    requires { Packable quarters q area.old }
    ensures { PackedAfter quarters q area.old area.new }
{
    if quarters {
        quarter_packing::pack(q, area);
    } else {
        half_packing::pack(q, area);
    }
}

// The peak of the q packed correlations in the front of the part.
fn search(quarters: bool, q: usize, part: &mut [i32]) -> Option<Peak>
    requires { Searchable quarters q part.old }
    ensures { IsPeak (places_of quarters q) (searched quarters q part.old) result }
{
    if quarters {
        quarters::search(q, part)
    } else {
        halves::search(q, part)
    }
}

// The peak of the word in the front half of the area, which it leaves as it was.
pub fn find_peak(m: usize, area: &mut [i32]) -> Option<Peak>
    requires { (1 ≤ m) × (m ≤ 10) × (length area.old ≡ 2 * 2 ^ m) × Bits (2 ^ m) area.old }
    ensures found { IsPeak (2 ^ m) (correlation m (values (word_of (2 ^ m) area.old))) result }
    ensures kept { SameFront (2 ^ m) area.old area.new }
{
    let n = words::size(m);
    let quarters = by_quarters(m);
    let k = part_exponent(quarters, m);
    let q = words::size(k);
    pack(quarters, q, area);
    let e = n + q;
    correlations::correlate(&mut area[n..e], k);
    let end = n + n;
    search(quarters, q, &mut area[n..end])
}
