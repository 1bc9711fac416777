// The greatest of the sums and differences of some pairs: of x + y and x - y the greater has size |x| + |y|. The sizes are searched for the
// greatest and for the places that have it.
#![tactic(auto)]

ghost use Rattle.std.specs.Prelude.{◌≡◌, ◌^◌, ◌<◌, length, pos, nat_abs};
ghost use Rattle.words.specs.Sum.{greatest_below};
ghost use Rattle.area.specs.Area.{size_at};
ghost use Rattle.peaks.specs.Peaks.{keys_below, lesser_size, pair_size, Sizes, PeakAt};

// The mask of the greatest absolute correlation, and its correlation's sign as a codeword's constant.
#[derive(Clone, Copy, Debug, PartialEq, Eq)]
pub struct Peak {
    pub mask: usize,
    pub constant: i32,
}

// The absolute value.
pub fn absolute(x: i32) -> i32
    requires { nat_abs x < 2 ^ 31 }
    ensures { result ≡ pos (nat_abs x) }
{
    if x < 0 { 0 - x } else { x }
}

// The size of a pair.
pub fn size_of(x: i32, y: i32) -> i32
    requires { (nat_abs x < 2 ^ 29) × (nat_abs y < 2 ^ 29) }
    ensures { result ≡ pos (pair_size x y) }
{
    absolute(x) + absolute(y)
}

// The other size of a pair.
pub fn lesser_of(x: i32, y: i32) -> i32
    requires { (nat_abs x < 2 ^ 29) × (nat_abs y < 2 ^ 29) }
    ensures { result ≡ pos (lesser_size x y) }
{
    absolute(absolute(x) - absolute(y))
}

// The greatest of some sizes.
pub fn greatest(sizes: &[i32]) -> i32
    requires { Sizes sizes.now }
    ensures { result ≡ pos (greatest_below (length sizes.now) (size_at sizes.now)) }
{
    let mut g: i32 = 0;
    for x in sizes {
        if g < *x {
            g = *x;
        }
    }
    g
}

// The sum of 65536 + i over the places i that have size g: how often it occurs, and where.
pub fn keys(sizes: &[i32], g: i32) -> u32
    requires sizes { Sizes sizes.now }
    requires g_value { g ≡ pos (nat_abs g) }
    ensures { result ≡ keys_below (length sizes.now) (size_at sizes.now) (nat_abs g) }
{
    let mut sum: u32 = 0;
    // Counted beside the sizes in 32 bits: from a place of 64 bits the compiler makes two keys at a time, not four.
    let mut key: u32 = 65536;
    for x in sizes {
        if *x == g {
            sum += key;
        }
        key += 1;
    }
    sum
}

// The peak at the pair x, y: the mask of the sum where their signs are alike, and of the difference where they are not; Err where one of
// them is 0, since both have it then.
pub fn peak_at(sum: usize, difference: usize, x: i32, y: i32) -> Result<Peak, Peak>
    ensures { PeakAt sum difference x y result }
{
    let constant = i32::from(x < 0);
    let other = i32::from(y < 0);
    let mask = if constant == other { sum } else { difference };
    let peak = Peak { mask, constant };
    let tied = (x == 0) | (y == 0);
    if tied {
        return Err(peak);
    }
    Ok(peak)
}
