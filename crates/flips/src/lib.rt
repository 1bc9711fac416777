// How a round ends: the flips, and the answer for a word that no round changes.
#![tactic(auto)]

ghost use Rattle.std.specs.Prelude.{true, cond, ◌≡◌, ◌+◌, ◌*◌, ◌%◌, ◌^◌, ◌≤◌, ◌<◌, length, eqb, pos};
ghost use Rattle.words.specs.Sum.{all_below};
ghost use Rattle.words.specs.Word.{bit};
ghost use Rattle.words.specs.Written.{Written};
ghost use Rattle.area.specs.Area.{Bits, SameFront, word_of};
ghost use Rattle.code.specs.Code.{codeword_test};
ghost use Rattle.cosets.specs.Votes.{Tally};
ghost use Rattle.told.specs.Told.{as_accepted, as_refused};
ghost use Rattle.flips.specs.Flips.{flip_of};

use told::{Accepted, Noise, Told, refused};

// Flips each place whose votes are more than half of the directions that did not abstain, of n - 1; whether none was.
pub fn flip(n: usize, abstained: usize, area: &mut [i32]) -> bool
    requires abstained_lt_n { (abstained < n) × (n ≤ 1024) × (2 * n ≤ length area.old) }
    requires bits { Bits n area.old }
    requires tally { Tally n n area.old }
    ensures settled { result ≡ all_below n (λ p. eqb (flip_of n abstained area.old p) 0) }
    ensures flipped { Written (pos 0) 0 n (λ p. pos ((bit (word_of n area.old) p + flip_of n abstained area.old p) % 2)) area.old area.new }
{
    let voters = (n - 1 - abstained) as u32;
    let mut settled = true;
    // By index: a place's bit and its votes stand in one slice.
    for p in 0..n {
        let f = if voters < 2 * (area[n + p] as u32) {
            1
        } else {
            0
        };
        area[p] = area[p] ^ f;
        settled = settled & (f == 0);
    }
    settled
}

// The answer for a word that no round changes: after one round it is the word given.
pub fn settle(m: usize, r: usize, k: usize, used: usize, area: &mut [i32]) -> Told
    requires { (m ≤ 10) × (2 * 2 ^ m ≤ length area.old) × Bits (2 ^ m) area.old }
    ensures tested { result.answer ≡ cond (codeword_test m r (word_of (2 ^ m) area.old)) (as_accepted k used) (as_refused Noise.Unsettled k used) }
    ensures same { SameFront (2 ^ m) area.old area.new }
    ensures first { result.kept ≡ true → k ≡ 1 }
{
    let accepted = Accepted {
        rounds: k,
        leaves: used,
    };
    if settled::holds_codeword(m, r, area) {
        return Told {
            answer: Ok(accepted),
            kept: k == 1,
        };
    }
    refused(Noise::Unsettled, k, used)
}
