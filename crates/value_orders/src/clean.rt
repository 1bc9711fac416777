// Whether values are a codeword of order 1 already: none is 0, and the signs are one, level by level. Each half of the signs goes on as the one
// below it, or as its complement.
ghost use Rattle.std.specs.Prelude.{◌&&◌, ◌≡◌, ◌+◌, ◌^◌, ◌≤◌, ◌<◌, FitsSigned};
ghost use Rattle.std.specs.Int.{w32};
ghost use Rattle.words.specs.Sum.{all_below};
ghost use Rattle.code.specs.FirstOrder;
ghost use Rattle.hadamard.specs.Correlation.{constant_of};
ghost use Rattle.hadamard.specs.CorrelationLaws.{constant_of-lt};
ghost use Rattle.confidences.specs.Values.{Values};
ghost use Rattle.value_orders.specs.Leaves.{sign_at, is_some, clean_test};

use affine_test::{Mark, added, first_levels, levels_from};

// The sign of a number is the bit.
struct Signed;

impl Mark for Signed {
    ghost bit_of = { constant_of };

    ghost Right = { λ x. FitsSigned w32 x };

    ghost low = { λ x h. constant_of-lt x };

    ghost fits = { λ x h. h };

    fn bit(x: i32) -> u32 {
        if x < 0 { 1 } else { 0 }
    }
}

// Whether none of the first n values is 0.
fn none_zero(n: usize, part: &[i32]) -> bool
    requires { Values n part.now }
    ensures { result ≡ all_below n (is_some part.now) }
{
    let mut some = true;
    for i in 0..n {
        some = some & (part[i] != 0);
    }
    some
}

// The last level of 2h signs, and whether no value is 0, in one pass.
fn last_level(h: usize, part: &[i32]) -> bool
    requires { (0 < h) × Values (h + h) part.now }
    ensures { result ≡ Rattle.code.specs.FirstOrder.repeats (sign_at part.now) h && all_below (h + h) (is_some part.now) }
{
    let t = added::<Signed>(0, h, part);
    let mut same = true;
    for i in 0..h {
        same = same & (added::<Signed>(i, h + i, part) == t) & (part[i] != 0) & (part[h + i] != 0);
    }
    same
}

// Whether the values are a codeword already.
pub fn is_clean(m: usize, part: &[i32]) -> bool
    requires { (m ≤ 10) × Values (2 ^ m) part.now }
    ensures { result ≡ clean_test m part.now }
{
    if m < 3 {
        if !levels_from::<Signed>(0, m, part) {
            return false;
        }
        return none_zero(words::size(m), part);
    }
    if !first_levels::<Signed>(part) {
        return false;
    }
    if m == 3 {
        return none_zero(8, part);
    }
    if !levels_from::<Signed>(3, m - 1, part) {
        return false;
    }
    last_level(words::size(m - 1), part)
}
