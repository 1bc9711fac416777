// Orders 0 and 1 of confidences in the area: by the sum, and by the greatest correlation.
#![tactic(auto)]

ghost use Rattle.std.specs.Prelude.{◌≤◌, ◌^◌, ◌≡◌, length};
ghost use Rattle.words.specs.Sum.{sum_below_ℤ};
ghost use Rattle.area.specs.Area.{at};
ghost use Rattle.hadamard.specs.Correlation.{correlation};
ghost use Rattle.peaks.specs.Peaks.{IsPeak};
ghost use Rattle.rule.specs.Reading.{order0, order1};
ghost use Rattle.told.specs.Told.{Read};
ghost use Rattle.confidences.specs.Values.{Values, front_of};
ghost use Rattle.value_orders.specs.Leaves.{LeafAs};

use clean::is_clean;
use peaks::Peak;
use signs::{to_bits, write_signs};
use told::{Accepted, Noise, Unread};

mod clean;
pub mod ends;
mod pairs;
pub mod signs;

// The peak of the values in the part: each half is transformed, and the pairs that the last level would join are searched.
fn find_peak(m: usize, part: &mut [i32]) -> Option<Peak>
    requires { (1 ≤ m) × (m ≤ 10) × (length part.old ≡ 2 ^ m) × Values (2 ^ m) part.old }
    ensures { IsPeak (2 ^ m) (correlation m (at part.old)) result }
{
    let h = words::size(m - 1);
    correlations::correlate_halves(part, m - 1);
    pairs::search(h, part)
}

// The reading at order 1 by the peak of the values in the part, which leaves its word by its bits or by its signs; whether there is one.
fn read_peak(m: usize, bits: bool, part: &mut [i32]) -> bool
    requires { (1 ≤ m) × (m ≤ 10) × (length part.old ≡ 2 ^ m) × Values (2 ^ m) part.old }
    ensures { LeafAs bits (2 ^ m) (order1 m (at part.old)) part.new result }
{
    let Some(peak) = find_peak(m, part) else {
        return false;
    };
    let mask = peak.mask;
    let constant = peak.constant;
    if bits {
        affine::write_affine(part, mask, constant);
        return true;
    }
    write_signs(part, mask, constant);
    true
}

// The reading at order 1 of the values in the part, which leaves its word by its bits, or by the signs of the numbers; whether there is one.
// Values that are a codeword already need no correlations.
pub fn read_word(m: usize, bits: bool, part: &mut [i32]) -> bool
    requires { (1 ≤ m) × (m ≤ 10) × (length part.old ≡ 2 ^ m) × Values (2 ^ m) part.old }
    ensures { LeafAs bits (2 ^ m) (order1 m (at part.old)) part.new result }
{
    if !is_clean(m, part) {
        return read_peak(m, bits, part);
    }
    if bits {
        to_bits(part.len(), part);
    }
    true
}

// The sum of the first n values.
fn sum_of(n: usize, area: &[i32]) -> i32
    requires { (n ≤ 1024) × Values n area.now }
    ensures { result ≡ sum_below_ℤ n (at area.now) }
{
    let mut s: i32 = 0;
    for z in &area[..n] {
        s += *z;
    }
    s
}

// The reading at order 0.
pub fn zero_order(m: usize, area: &mut [i32]) -> Result<Accepted, Unread>
    requires { (m ≤ 10) × Values (2 ^ m) area.old }
    ensures { Read (2 ^ m) (order0 m (at (front_of (2 ^ m) area.old))) area.new result }
{
    let n = words::size(m);
    let s = sum_of(n, area);
    if s == 0 {
        return Err(Unread {
            why: Noise::Tie,
            rounds: 0,
            leaves: 0,
        });
    }
    let accepted = Accepted {
        rounds: 0,
        leaves: 0,
    };
    if s < 0 {
        area::fill(&mut area[0..n], 1);
        return Ok(accepted);
    }
    area::fill(&mut area[0..n], 0);
    Ok(accepted)
}

// The reading at order 1.
pub fn first_order(m: usize, area: &mut [i32]) -> Result<Accepted, Unread>
    requires { (1 ≤ m) × (m ≤ 10) × Values (2 ^ m) area.old }
    ensures { Read (2 ^ m) (order1 m (at (front_of (2 ^ m) area.old))) area.new result }
{
    let n = words::size(m);
    if !read_word(m, true, &mut area[0..n]) {
        return Err(Unread {
            why: Noise::Tie,
            rounds: 0,
            leaves: 1,
        });
    }
    Ok(Accepted {
        rounds: 0,
        leaves: 1,
    })
}
