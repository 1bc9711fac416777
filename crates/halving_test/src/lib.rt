// The codeword test in source 000's order, on halves of the word.
#![tactic(auto)]

ghost use Rattle.std.specs.Prelude.{◌≡◌, ◌^◌, ◌≤◌, ◌<◌, length};
ghost use Rattle.words.specs.Word.{IsWord};
ghost use Rattle.code.specs.TestSteps.{all_equal, steps_test};

use coefficients::Parity;
use transforms::butterfly;

// Whether all places are equal.
fn all_equal(s: &[u8]) -> bool
    requires { 0 < length s.now }
    ensures { result ≡ all_equal (length s.now) s.now }
{
    let first = s[0];
    let mut all = true;
    for x in s {
        all &= *x == first;
    }
    all
}

// The steps on the word in t. The sum stands in the place of the second half, which no later step asks for, so that t has room for every
// depth.
fn passes(m: usize, r: usize, t: &mut [u8]) -> bool
    requires { (m ≤ 10) × (r ≤ m) × IsWord m t.old }
    ensures { result ≡ steps_test m r t.old }
{
    if r == 0 {
        return all_equal(t);
    }
    if r == m {
        return true;
    }
    let h = words::size(m - 1);
    let n = h + h;
    // the two halves are added
    butterfly::<_, Parity>(t, h);
    if !passes(m - 1, r - 1, &mut t[h..n]) {
        return false;
    }
    passes(m - 1, r, &mut t[0..h])
}

// Whether a word is a codeword of order r: the steps on a copy of it, t.
pub fn has_order(m: usize, r: usize, word: &[u8], t: &mut [u8]) -> bool
    requires { (m ≤ 10) × (r ≤ m) × IsWord m word.now × (length t.old ≡ 2 ^ m) }
    ensures { result ≡ steps_test m r word.now }
{
    words::copy(word, t);
    passes(m, r, t)
}
