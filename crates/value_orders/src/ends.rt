// How rounds of confidences end: the sums become the values, and the signs of the values after the last round the word.
ghost use Rattle.std.specs.Prelude.{◌≡◌, ◌+◌, ◌*◌, ◌^◌, ◌≤◌, length, nat_abs, nat_eq, pos, position};
ghost use Rattle.words.specs.Written.{Written};
ghost use Rattle.area.specs.Area.{at};
ghost use Rattle.told.specs.Told.{Read};
ghost use Rattle.confidences.specs.Confidences.{ended, lowest_zero};
ghost use Rattle.confidences.specs.Confidences;
ghost use Rattle.confidences.specs.Values.{front_of, Sums};
ghost use Rattle.value_orders.specs.Leaves.{place_in};

use crate::signs::to_bits;
use told::{Accepted, Noise, Unread};
use value_steps::magnitudes::cut;

// What a reading of confidences answers, and the place that 17 names; 0 where the answer is another.
#[derive(Clone, Copy, Debug, PartialEq, Eq)]
pub struct Ended {
    pub answer: Result<Accepted, Unread>,
    pub place: usize,
}

// Each of the n sums, cut to the range, becomes the value.
pub fn renew(n: usize, area: &mut [i32])
    requires { (2 * n ≤ length area.old) × Sums n area.old }
    ensures { Written (pos 0) 0 n (λ p. Rattle.confidences.specs.Confidences.cut (at area.old (n + p))) area.old area.new }
{
    for p in 0..n {
        let z = area[n + p];
        area[p] = cut(z);
    }
}

// The lowest place of value 0 among the first n.
fn lowest_zero(n: usize, area: &[i32]) -> Option<usize>
    requires { n ≤ length area.now }
    ensures { result ≡ position (λ z. nat_eq (nat_abs z) 0) (front_of n area.now) }
{
    area[..n].iter().position(|z| *z == 0)
}

// The answer for the values after k rounds, with the leaves used: their signs, where none is 0 and they are a codeword.
pub fn finish(m: usize, r: usize, k: usize, used: usize, area: &mut [i32]) -> Ended
    requires { (m ≤ 10) × (2 * 2 ^ m ≤ length area.old) }
    ensures read { Read (2 ^ m) (ended m r (front_of (2 ^ m) area.old) k used) area.new result.answer }
    ensures place { result.place ≡ place_in (ended m r (front_of (2 ^ m) area.old) k used) (lowest_zero m (front_of (2 ^ m) area.old)) }
{
    let n = words::size(m);
    if let Some(p) = lowest_zero(n, area) {
        return Ended {
            answer: Err(Unread {
                why: Noise::Erased,
                rounds: k,
                leaves: used,
            }),
            place: p,
        };
    }
    to_bits(n, area);
    if settled::holds_codeword(m, r, area) {
        return Ended {
            answer: Ok(Accepted {
                rounds: k,
                leaves: used,
            }),
            place: 0,
        };
    }
    Ended {
        answer: Err(Unread {
            why: Noise::Unsettled,
            rounds: k,
            leaves: used,
        }),
        place: 0,
    }
}
