// Readings and rounds of confidences, each starting the other, the order falling.
// A reading at exponent m has its values in the first 2^m numbers of its area; above order 1 the next 2^m are sums, and what is left is
// lent to the readings one order lower.
#![tactic(auto)]

ghost use Rattle.std.specs.Prelude.{◌≡◌, suc, ◌^◌, ◌≤◌};
ghost use Rattle.told.specs.Told.{as_refused};
ghost use Rattle.confidences.specs.Confidences;
ghost use Rattle.confidences.specs.Values.{front_of};
ghost use Rattle.value_readings.specs.Polls.{Renewed};
ghost use Rattle.value_readings.specs.Readings.{Ready, ReadsValues};

use rounds::answers::hear_answer;
use rounds::ends::{clear, conclude};
use rounds::leaf_round;
use steps::Count;
use told::{Accepted, Noise, Unread};
use value_orders::ends::{Ended, finish};
use value_orders::{first_order, zero_order};
use value_steps::project;

mod rounds;

// An answer that names no place.
fn unnamed(answer: Result<Accepted, Unread>) -> Ended
    ensures { (result.answer ≡ answer) × (result.place ≡ 0) }
{
    Ended { answer, place: 0 }
}

// The answer where the leaves left do not suffice.
fn exhausted(left: usize) -> Ended
    ensures { (result.answer ≡ as_refused Noise.TooManyLeaves 0 left) × (result.place ≡ 0) }
{
    unnamed(Err(Unread {
        why: Noise::TooManyLeaves,
        rounds: 0,
        leaves: left,
    }))
}

// The reading of the values in the front of the area from order 2 on, with at most `left` leaves.
#[cycle(reading_round)]
fn reading(m: usize, r: usize, rounds: usize, left: usize, area: &mut [i32]) -> Ended
    requires ready { Ready m r left area.old }
    requires le_r { 2 ≤ r }
    ensures { ReadsValues m r rounds left (front_of (2 ^ m) area.old) area.new result }
{
    let mut used = 0;
    for _ in 0..rounds {
        let Some(count) = round(m - 1, r - 1, rounds, left - used, area) else {
            return exhausted(left);
        };
        used += count.leaves;
    }
    finish(m, r, rounds, used, area)
}

// A round of the values of exponent m + 1 in the front of the area: each becomes the sum over the directions' readings at exponent m and
// order r, cut to the range.
#[cycle(reading_round)]
fn round(m: usize, r: usize, rounds: usize, left: usize, area: &mut [i32]) -> Option<Count>
    requires ready { Ready (suc m) (suc r) left area.old }
    requires le_r { 1 ≤ r }
    ensures { Renewed m left (Rattle.confidences.specs.Confidences.reading r m rounds) area.old area.new result }
{
    if r == 1 {
        return leaf_round(m, left, area);
    }
    let n = words::size(m);
    let rest = 4 * n;
    clear(m, area);
    let mut used = 0;
    let mut abstained = 0;
    for i in 0..2 * n - 1 {
        project(m, i + 1, rest, area);
        let told = reading(m, r, rounds, left - used, &mut area[rest..]);
        let answer = told.answer;
        let count = hear_answer(m, i + 1, answer, area)?;
        used += count.leaves;
        abstained += count.abstained;
    }
    conclude(m, abstained, area);
    Some(Count {
        leaves: used,
        abstained,
    })
}

// The reading of the values in the front of the area, with at most `left` leaves. Orders 0 and 1 are not read in the cycle, so that a call for
// one goes straight to it.
pub fn read(m: usize, r: usize, rounds: usize, left: usize, area: &mut [i32]) -> Ended
    requires { Ready m r left area.old }
    ensures { ReadsValues m r rounds left (front_of (2 ^ m) area.old) area.new result }
{
    if r == 0 {
        return unnamed(zero_order(m, area));
    }
    if r == 1 {
        if left == 0 {
            return exhausted(left);
        }
        return unnamed(first_order(m, area));
    }
    reading(m, r, rounds, left, area)
}
