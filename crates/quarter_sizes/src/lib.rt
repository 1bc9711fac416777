// The sizes of the sums and the differences of quads, written after them.
#![tactic(auto)]

ghost use Rattle.std.specs.Prelude.{◌≡◌, ◌+◌, ◌/◌, ◌%◌, ◌≤◌, pos};
ghost use Rattle.quarter_sizes.specs.Sized.{Quads, FourSized, Sized};

// The lowest byte of b, and the next.
fn first(b: u32) -> i32
    ensures { result ≡ pos (b % 256) }
{
    (b % 256) as i32
}

fn second(b: u32) -> i32
    ensures { result ≡ pos (b / 256 % 256) }
{
    first(b / 256)
}

// The sizes of the four quads from i on. All are read before any is written, so that the compiler takes them together.
fn size_four(q: usize, i: usize, part: &mut [i32])
    requires { (i + 4 ≤ q) × Quads q part.old }
    ensures { FourSized q i part.old part.new }
{
    let b0 = keys::sizes_of(part[i]);
    let b1 = keys::sizes_of(part[i + 1]);
    let b2 = keys::sizes_of(part[i + 2]);
    let b3 = keys::sizes_of(part[i + 3]);
    let s = q + i;
    area::put_four(part, s, first(b0), first(b1), first(b2), first(b3));
    area::put_four(part, q + s, second(b0), second(b1), second(b2), second(b3));
}

// The sizes of the q quads in the front of the part, after them.
pub fn sizes(q: usize, part: &mut [i32])
    requires { Quads q part.old }
    ensures { Sized q q part.old part.new }
{
    for k in 0..q / 4 {
        size_four(q, 4 * k, part);
    }
}
