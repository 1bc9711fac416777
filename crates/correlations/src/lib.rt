// Correlations by the fast Hadamard transform.
#![tactic(auto)]

ghost use Rattle.std.specs.Prelude.{◌≡◌, List, ℕ, suc, ◌^◌, ℤ, length};
ghost use Rattle.words.specs.Sum.{tabulate};
ghost use Rattle.words.specs.Butterflies.{halved, Entries, Blocked, BlocksDone};
ghost use Rattle.area.specs.Area.{at};
ghost use Rattle.hadamard.specs.Correlation.{correlation};
ghost use Rattle.hadamard.specs.Summable.{Summable};
ghost use Rattle.hadamard.specs.Transform.{sums};
ghost use Rattle.correlations.specs.Begun.{Begun, Blockwise, End};
ghost use Rattle.correlations.specs.Halves.{HalvesDone};

use hadamard::Sum;
use transforms::{butterfly, each_block, level, two};
use twice::two_levels;

mod twice;

// The transform of 4 numbers: all are read before any is written, so that the compiler takes them together.
fn four(a: &mut [i32])
    requires { Entries sums 4 2 a.old }
    ensures { a.new ≡ halved sums 2 a.old }
{
    let x0 = a[0];
    let x1 = a[1];
    let x2 = a[2];
    let x3 = a[3];
    let s = x0 + x1;
    let d = x0 - x1;
    let t = x2 + x3;
    let e = x2 - x3;
    a[0] = s + t;
    a[1] = d + e;
    a[2] = s - t;
    a[3] = d - e;
}

// The transform of 8 numbers: of each half, then one level.
pub fn eight(a: &mut [i32])
    requires { Entries sums 8 3 a.old }
    ensures { a.new ≡ halved sums 3 a.old }
{
    four(&mut a[0..4]);
    four(&mut a[4..8]);
    butterfly::<_, Sum>(a, 4);
}

// The transform of each block of 4 numbers.
fn fours(a: &mut [i32])
    requires { Blocked sums 4 2 a.old }
    ensures { BlocksDone (halved sums 2) 4 (length a.old) a.old a.new }
{
    each_block(a, 4, |b| four(b));
}

// The transform of each block of 8 numbers.
fn eights(a: &mut [i32])
    requires { Blocked sums 8 3 a.old }
    ensures { BlocksDone (halved sums 3) 8 (length a.old) a.old a.new }
{
    each_block(a, 8, |b| eight(b));
}

// The levels from the blocks of `first` numbers to those of `end`, one at a time.
pub fn levels(a: &mut [i32], first: usize, end: usize)
    requires { Begun first a.old × End first end a.old }
    ensures { (m : ℕ) (x : List ℤ) → Blockwise first m x a.old → Blockwise end m x a.new }
{
    // By hand: the blocks double, and a range counts by one.
    let mut h = first;
    while h < end {
        level::<_, Sum>(a, h);
        h = h + h;
    }
}

// The levels from the blocks of 4 to those of `end`, two at a time. Each call has a literal, which the compiler unrolls.
fn levels_by_two(a: &mut [i32], end: usize)
    requires { Begun 4 a.old × End 4 end a.old }
    ensures { (m : ℕ) (x : List ℤ) → Blockwise 4 m x a.old → Blockwise end m x a.new }
{
    if end < 16 {
        levels(a, 4, end);
        return;
    }
    two_levels(a, 4);
    if end < 64 {
        levels(a, 16, end);
        return;
    }
    two_levels(a, 16);
    if end < 256 {
        levels(a, 64, end);
        return;
    }
    two_levels(a, 64);
    levels(a, 256, end);
}

// The correlation of every mask with the values in a, in place: blocks of 4 first, then two levels at a time.
pub fn correlate(a: &mut [i32], m: usize)
    requires { Summable m a.old }
    ensures { a.new ≡ tabulate (2 ^ m) (correlation m (at a.old)) }
{
    if m == 0 {
        return;
    }
    if m == 1 {
        two::<_, Sum>(a);
        return;
    }
    if m == 3 {
        eight(a);
        return;
    }
    fours(a);
    let n = a.len();
    levels_by_two(a, n);
}

// The correlations of each half with its own values, in place: the transform of the whole without its last level. Small halves are straight
// code.
pub fn correlate_halves(a: &mut [i32], k: usize)
    requires { Summable (suc k) a.old }
    ensures { HalvesDone k a.old a.new }
{
    let h = a.len() / 2;
    if k == 0 {
        return;
    }
    if k == 1 {
        level::<_, Sum>(a, 1);
        return;
    }
    if k == 3 {
        eights(a);
        return;
    }
    fours(a);
    levels_by_two(a, h);
}
