// The coefficients of a word of bytes, in place.
#![tactic(auto)]

ghost use Rattle.std.specs.Prelude.{◌≡◌, ◌^◌, ◌≤◌, length};
ghost use Rattle.words.specs.Sum.{tabulate};
ghost use Rattle.words.specs.Word.{IsWord};
ghost use Rattle.words.specs.Butterflies.{halved, Entries, Blocked, BlocksDone};
ghost use Rattle.code.specs.Code.{coefficient};
ghost use Rattle.coefficients.specs.TransformLaws.{parities};

use transforms::{Pairing, butterfly, each_block, level, two};

// Sums modulo 2: the first half is added to the second.
pub struct Parity;

impl Pairing<u8> for Parity {
    ghost rule = { parities };

    fn pair(x: u8, y: u8) -> (u8, u8) {
        (x, x ^ y)
    }
}

// The transform of 4 bits. By literals, as that of 8: the compiler makes straight code of both.
fn four(s: &mut [u8])
    requires { Entries parities 4 2 s.old }
    ensures { s.new ≡ halved parities 2 s.old }
{
    two::<_, Parity>(&mut s[0..2]);
    two::<_, Parity>(&mut s[2..4]);
    butterfly::<_, Parity>(s, 2);
}

// The transform of 8 bits.
fn eight(s: &mut [u8])
    requires { Entries parities 8 3 s.old }
    ensures { s.new ≡ halved parities 3 s.old }
{
    four(&mut s[0..4]);
    four(&mut s[4..8]);
    butterfly::<_, Parity>(s, 4);
}

// The transform of each block of 8 bits.
fn eights(s: &mut [u8])
    requires { Blocked parities 8 3 s.old }
    ensures { BlocksDone (halved parities 3) 8 (length s.old) s.old s.new }
{
    each_block(s, 8, |b| eight(b));
}

// The coefficient of every mask of the word in s, in place: blocks of 8 first, then level by level.
pub fn transform(s: &mut [u8], m: usize)
    requires { IsWord m s.old × (m ≤ 10) }
    ensures { s.new ≡ tabulate (2 ^ m) (coefficient m s.old) }
{
    if m == 0 {
        return;
    }
    if m == 1 {
        two::<_, Parity>(s);
        return;
    }
    if m == 2 {
        four(s);
        return;
    }
    eights(s);
    // By hand: the blocks double, and a range counts by one.
    let mut h: usize = 8;
    while h < s.len() {
        level::<_, Parity>(s, h);
        h = h + h;
    }
}
