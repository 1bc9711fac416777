// The coefficients of a word in numbers: sums mod 2, by halves.
#![tactic(auto)]

ghost use Rattle.std.specs.Prelude.{◌≡◌, ◌^◌, length};
ghost use Rattle.words.specs.Butterflies.{halved, Entries, Blocked, BlocksDone};
ghost use Rattle.parities.specs.Parities.{number_parities};

use transforms::{Pairing, each_block, level, two};

// Sums modulo 2: the first half is added to the second.
struct Parity;

impl Pairing<i32> for Parity {
    ghost rule = { number_parities };

    fn pair(x: i32, y: i32) -> (i32, i32) {
        (x, x ^ y)
    }
}

// The transform of 4 bits: all are read before any is written, so that the compiler takes them together.
fn four(a: &mut [i32])
    requires { Entries number_parities 4 2 a.old }
    ensures { a.new ≡ halved number_parities 2 a.old }
{
    let x0 = a[0];
    let x1 = a[1];
    let x2 = a[2];
    let x3 = a[3];
    a[1] = x0 ^ x1;
    a[2] = x0 ^ x2;
    a[3] = (x0 ^ x1) ^ (x2 ^ x3);
}

// The transform of each block of 4 bits.
fn fours(a: &mut [i32])
    requires { Blocked number_parities 4 2 a.old }
    ensures { BlocksDone (halved number_parities 2) 4 (length a.old) a.old a.new }
{
    each_block(a, 4, |b| four(b));
}

// The transform of 2 ^ m bits: blocks of 4 first, then level by level.
pub fn transform(a: &mut [i32], m: usize)
    requires { Entries number_parities (2 ^ m) m a.old }
    ensures { a.new ≡ halved number_parities m a.old }
{
    if m == 0 {
        return;
    }
    if m == 1 {
        two::<_, Parity>(a);
        return;
    }
    fours(a);
    // By hand: the blocks double, and a range counts by one.
    let mut h: usize = 4;
    while h < a.len() {
        level::<_, Parity>(a, h);
        h = h + h;
    }
}
