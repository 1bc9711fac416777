// The gap of the sums and differences of pairs: the numbers i and h + i of a part, which the last level of the transform would join. It is
// not made: of x + y and x - y the greater has size |x| + |y|, and the other ||x| - |y||.
ghost use Rattle.std.specs.Prelude.{cond, ◌≡◌, ◌+◌, ◌-◌, max, eqb, pos, nat_abs, length};
ghost use Rattle.words.specs.Sum.{greatest_below};
ghost use Rattle.words.specs.Written.{Written};
ghost use Rattle.area.specs.Area.{size_at};
ghost use Rattle.hadamard.specs.Correlation.{count_below};
ghost use Rattle.peaks.specs.Peaks.{lesser_sizes, pair_sizes, pairs_joined, Pairs, Sizes};
ghost use Rattle.gap.specs.Gap.{gap_below};
ghost use Rattle.gap.specs.Measuring.{unlike, Heights, Size, Small};

// The greatest of the sizes of some pairs, and the greatest of their other sizes.
#[derive(Clone, Copy)]
struct Tops {
    most: i32,
    lower: i32,
}

// The first number of each of the h pairs becomes the size of the pair.
fn to_sizes(h: usize, part: &mut [i32]) -> Tops
    requires { Pairs h part.old }
    ensures written { Written (pos 0) 0 h (λ i. pos (pair_sizes h part.old i)) part.old part.new }
    ensures most_value { result.most ≡ pos (greatest_below h (pair_sizes h part.old)) }
    ensures lower_value { result.lower ≡ pos (greatest_below h (lesser_sizes h part.old)) }
{
    let mut most: i32 = 0;
    let mut lower: i32 = 0;
    for i in 0..h {
        let x = part[i];
        let y = part[h + i];
        let s = peaks::size_of(x, y);
        let t = peaks::lesser_of(x, y);
        part[i] = s;
        if most < s {
            most = s;
        }
        if lower < t {
            lower = t;
        }
    }
    Tops { most, lower }
}

// How many of some sizes are the greatest, and the greatest of the others.
#[derive(Clone, Copy)]
struct Rest {
    count: u32,
    second: i32,
}

// A size, or 0 where it is g.
fn under(x: i32, g: i32) -> i32
    requires { Size x × Size g }
    ensures { result ≡ pos (cond (eqb (nat_abs x) (nat_abs g)) 0 (nat_abs x)) }
{
    if x == g { 0 } else { x }
}

// How many of the sizes are g, and the greatest of the others.
fn next(sizes: &[i32], g: i32) -> Rest
    requires { Sizes sizes.now × Size g }
    ensures count_value { result.count ≡ count_below (length sizes.now) (size_at sizes.now) (nat_abs g) }
    ensures second_value { result.second ≡ pos (greatest_below (length sizes.now) (unlike (nat_abs g) (size_at sizes.now))) }
{
    let mut count: u32 = 0;
    let mut second: i32 = 0;
    for x in sizes {
        if *x == g {
            count += 1;
        }
        let z = under(*x, g);
        if second < z {
            second = z;
        }
    }
    Rest { count, second }
}

// A size less the greater of two that are at most as great.
fn less_both(x: i32, a: i32, b: i32) -> usize
    requires { Heights x a b }
    ensures { result ≡ nat_abs x - max (nat_abs a) (nat_abs b) }
{
    if a < b {
        return (x - b) as usize;
    }
    (x - a) as usize
}

// The gap of the sums and differences of the h pairs. Where one pair has the greatest size, the second is the greatest of the sizes of the
// others and of the other sizes, of which none is above the size of its pair. The part is overwritten.
pub fn widest(h: usize, part: &mut [i32]) -> usize
    requires { Small h part.old }
    ensures { result ≡ gap_below (h + h) (λ u. nat_abs (pairs_joined h part.old u)) }
{
    let tops = to_sizes(h, part);
    let most = tops.most;
    let lower = tops.lower;
    let left = next(&part[0..h], most);
    if left.count != 1 {
        return 0;
    }
    let second = left.second;
    less_both(most, second, lower)
}
