// The greatest of the sums and differences of pairs: the numbers i and h + i of a part, which the last level of the transform would join. It
// is not made: of x + y and x - y the greater has size |x| + |y|.
ghost use Rattle.std.specs.Prelude.{◌≡◌, ◌+◌, ◌-◌, ◌*◌, pos};
ghost use Rattle.words.specs.Sum.{greatest_below};
ghost use Rattle.peaks.specs.Peaks.{IsPeak, Pairs, pair_sizes, pairs_joined};

use peaks::Peak;

// The greatest keys of some pairs: 512 times the size, and with it the place or what is left to 511. Of equal sizes the last place wins by the
// one and the first by the other.
#[derive(Clone, Copy)]
struct Keys {
    last: i32,
    first: i32,
}

// The greatest keys of the h pairs, in one pass: they name both ends of the places of the greatest size.
fn ends(h: usize, part: &[i32]) -> Keys
    requires { Pairs h part.now }
    ensures last_value { result.last ≡ pos (greatest_below h (λ i. 512 * pair_sizes h part.now i + i)) }
    ensures first_value { result.first ≡ pos (greatest_below h (λ i. 512 * pair_sizes h part.now i + (511 - i))) }
{
    let mut last: i32 = 0;
    let mut first: i32 = 0;
    for i in 0..h {
        let x = peaks::size_of(part[i], part[h + i]) * 512;
        let up = i as i32;
        let y = x + up;
        let z = x + (511 - up);
        if last < y {
            last = y;
        }
        if first < z {
            first = z;
        }
    }
    Keys { last, first }
}

// The peak of the sums and differences of the h pairs.
pub fn search(h: usize, part: &[i32]) -> Option<Peak>
    requires { Pairs h part.now }
    ensures { IsPeak (h + h) (pairs_joined h part.now) result }
{
    let e = ends(h, part);
    let j = (e.last % 512) as usize;
    let i = 511 - (e.first % 512) as usize;
    if i != j {
        return None;
    }
    let x = part[j];
    let y = part[h + j];
    peaks::peak_at(j, h + j, x, y).ok()
}
