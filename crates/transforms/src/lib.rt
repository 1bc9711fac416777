// Transforms by halves, in place, over any pair of operations on the entries.
#![tactic(auto)]

ghost use Rattle.std.specs.Prelude.{◌≡◌, ◌+◌, ◌≤◌, ℕ, List, length, take, drop};
ghost use Rattle.words.specs.Butterflies.{Rule, butterflies, halved, Entries, Blocked, BlocksDone};
ghost use Rattle.words.specs.Blocks.{Keeps};
ghost use Rattle.transforms.specs.EachBlock.{Whole, Takes, Does};

// What a transform does to an entry and its partner.
pub trait Pairing<T> {
    ghost rule: { Rule T };

    fn pair(x: T, y: T) -> (T, T)
        requires { rule.Room 1 x × rule.Room 1 y }
        ensures { (result.0 ≡ rule.low x y) × (result.1 ≡ rule.high x y) };
}

// Both operations on each of the first h entries and its partner in the next h.
pub fn butterfly<T: Copy, K: Pairing<T>>(a: &mut [T], h: usize)
    requires { Entries K.rule (h + h) 1 a.old }
    ensures { a.new ≡ butterflies K.rule h a.old }
{
    for i in 0..h {
        let (x, y) = K::pair(a[i], a[h + i]);
        a[i] = x;
        a[h + i] = y;
    }
}

// The transform of 2 entries.
pub fn two<T: Copy, K: Pairing<T>>(a: &mut [T])
    requires { Entries K.rule 2 1 a.old }
    ensures { a.new ≡ halved K.rule 1 a.old }
{
    butterfly::<T, K>(a, 1);
}

// Each block of s entries, changed by f.
pub fn each_block<T, F: Fn(&mut [T])>(a: &mut [T], s: usize, f: F)
    requires whole { Whole s (length a.old) }
    requires takes { (b : ℕ) → b + s ≤ length a.old → Takes F.Fn f (take s (drop b a.old)) }
    ensures { (change : List T → List T) → Keeps change s → Does F.Fn f change → BlocksDone change s (length a.old) a.old a.new }
{
    // By place: to count the blocks takes a division, up to a tenth of a small transform.
    let n = a.len();
    let mut b = 0;
    while b < n {
        let e = b + s;
        f(&mut a[b..e]);
        b = e;
    }
}

// The butterflies of each block of two halves of h entries.
pub fn level<T: Copy, K: Pairing<T>>(a: &mut [T], h: usize)
    requires { Blocked K.rule (h + h) 1 a.old }
    ensures { BlocksDone (butterflies K.rule h) (h + h) (length a.old) a.old a.new }
{
    each_block(a, h + h, |b| butterfly::<T, K>(b, h));
}
