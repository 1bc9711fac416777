// Two levels of the transform at once: each number is read and written once for both.
ghost use Rattle.std.specs.Prelude.{◌≡◌, ◌*◌, length};
ghost use Rattle.words.specs.Butterflies.{Entries, Blocked, BlocksDone};
ghost use Rattle.hadamard.specs.Transform.{sums};
ghost use Rattle.correlations.specs.Twice.{twice};

use transforms::each_block;

// Of four parts of h numbers: the sums and differences of the first two and of the last two, then theirs, in place. By
// index: an entry stands in each of four parts of one slice.
fn two_butterflies(a: &mut [i32], h: usize)
    requires { Entries sums (4 * h) 2 a.old }
    ensures { a.new ≡ twice sums h a.old }
{
    for i in 0..h {
        let x = a[i];
        let y = a[h + i];
        let z = a[2 * h + i];
        let w = a[3 * h + i];
        let s = x + y;
        let d = x - y;
        let t = z + w;
        let e = z - w;
        a[i] = s + t;
        a[h + i] = d + e;
        a[2 * h + i] = s - t;
        a[3 * h + i] = d - e;
    }
}

// Two levels of each block of four parts of h numbers.
pub fn two_levels(a: &mut [i32], h: usize)
    requires { Blocked sums (4 * h) 2 a.old }
    ensures { BlocksDone (twice sums h) (4 * h) (length a.old) a.old a.new }
{
    each_block(a, 4 * h, |b| two_butterflies(b, h));
}
