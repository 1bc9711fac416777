// The message reader, of words that passed the checks.
#![tactic(auto)]

ghost use Rattle.std.specs.Prelude.{◌≡◌, cond, ◌^◌, ◌≤◌, length};
ghost use Rattle.words.specs.Sum.{tabulate};
ghost use Rattle.words.specs.Word.{IsWord};
ghost use Rattle.code.specs.Code.{coefficient, dimension, codeword_test, message_of};

use messages::{degrees, gather, is_low};

// The coefficients of a word in t, and whether those of degree above r are 0.
fn test_in(m: usize, r: usize, word: &[u8], t: &mut [u8]) -> bool
    requires { (m ≤ 10) × (r ≤ 10) × IsWord m word.now × (length t.old ≡ 2 ^ m) }
    ensures { (result ≡ codeword_test m r word.now) × (t.new ≡ tabulate (2 ^ m) (coefficient m word.now)) }
{
    words::copy(word, t);
    coefficients::transform(t, m);
    is_low(r, t)
}

// The message of a codeword in out, by way of t; false where the word is no codeword.
pub fn read_in(m: usize, r: usize, word: &[u8], t: &mut [u8], out: &mut [u8]) -> bool
    requires { (m ≤ 10) × (r ≤ 10) × IsWord m word.now × (length t.old ≡ 2 ^ m) × (length out.old ≡ dimension m r) }
    ensures { (result ≡ codeword_test m r word.now) × (out.new ≡ cond result (message_of m r word.now) out.old) }
{
    if test_in(m, r, word, t) {
        let mut d = [0u8; 1024];
        degrees(&mut d, t.len());
        gather(r, &d, t, out);
        true
    } else {
        false
    }
}
