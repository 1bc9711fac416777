// The reading at order 0: by the number of ones.
#![tactic(auto)]

ghost use Rattle.std.specs.Prelude.{◌≡◌, ◌≤◌, ◌^◌};
ghost use Rattle.words.specs.Sum.{sum_below};
ghost use Rattle.words.specs.Word.{bit};
ghost use Rattle.area.specs.Area.{Bits, word_of};
ghost use Rattle.hadamard.specs.Correlation.{values};
ghost use Rattle.rule.specs.Reading.{order0};
ghost use Rattle.told.specs.Told.{Read, Kept};

use told::{Accepted, Noise, Told, changed, refused};

// The number of ones among the first n numbers, which are bits.
fn count_ones(n: usize, area: &[i32]) -> usize
    requires { (n ≤ 1024) × Bits n area.now }
    ensures { (result ≡ sum_below n (bit (word_of n area.now))) × (result ≤ n) }
{
    let mut k = 0;
    for x in &area[..n] {
        if *x != 0 {
            k += 1;
        }
    }
    k
}

// The reading at order 0.
pub fn zero_order(m: usize, area: &mut [i32]) -> Told
    requires { (m ≤ 10) × Bits (2 ^ m) area.old }
    ensures read { Read (2 ^ m) (order0 m (values (word_of (2 ^ m) area.old))) area.new result.answer }
    ensures kept { Kept (2 ^ m) area.old area.new result }
{
    let n = words::size(m);
    let k = count_ones(n, area);
    let accepted = Accepted {
        rounds: 0,
        leaves: 0,
    };
    if 2 * k == n {
        return refused(Noise::Tie, 0, 0);
    }
    if 2 * k < n {
        area::fill(&mut area[..n], 0);
        return changed(Ok(accepted));
    }
    area::fill(&mut area[..n], 1);
    changed(Ok(accepted))
}
