// Readings and rounds, each starting the other, the order falling.
// A reading at exponent m has its word in the first 2^m numbers of its area; above order 1 the next 2^m are votes, and what is left is
// lent to the readings one order lower.
#![tactic(auto)]

ghost use Rattle.std.specs.Prelude.{suc, ◌+◌, ◌*◌, ◌^◌, ◌≤◌, ◌<◌};
ghost use Rattle.area.specs.Area.{word_of};
ghost use Rattle.rule.specs.Reading;
ghost use Rattle.rule.specs.Decoding.{limited};
ghost use Rattle.told.specs.Told.{Read, Kept};
ghost use Rattle.readings.specs.Readings.{Ready, Voted};

use flips::{flip, settle};
use order_one::first_order;
use order_zero::zero_order;
use steps::{Count, cast};
use told::{Noise, Told, refused};

// The reading of the word in the front of the area, with at most `left` leaves. Numbers, no Profile: all but the round limit fall with every
// call.
#[cycle(reading_round)]
pub fn reading(m: usize, r: usize, rounds: usize, left: usize, area: &mut [i32]) -> Told
    requires { Ready m r left area.old }
    ensures read { Read (2 ^ m) (limited left (Rattle.rule.specs.Reading.reading r m rounds (word_of (2 ^ m) area.old))) area.new result.answer }
    ensures kept { Kept (2 ^ m) area.old area.new result }
{
    if r == 0 {
        return zero_order(m, area);
    }
    if r == 1 {
        if left == 0 {
            return refused(Noise::TooManyLeaves, 0, left);
        }
        return first_order(m, area);
    }
    let n = words::size(m);
    let mut used = 0;
    for k in 0..rounds {
        let Some(count) = round(m - 1, r - 1, rounds, left - used, area) else {
            return refused(Noise::TooManyLeaves, 0, left);
        };
        used += count.leaves;
        if flip(n, count.abstained, area) {
            return settle(m, r, k + 1, used, area);
        }
    }
    refused(Noise::Flipping, rounds, used)
}

// A round of the word of exponent m + 1 in the front of the area: every direction's votes, by readings at exponent m and order r, their leaves
// and how many directions abstained.
#[cycle(reading_round)]
fn round(m: usize, r: usize, rounds: usize, left: usize, area: &mut [i32]) -> Option<Count>
    requires ready { Ready (suc m) (suc r) left area.old }
    requires le_r { 1 ≤ r }
    ensures { Voted m left (Rattle.rule.specs.Reading.reading r m rounds) area.old area.new result }
{
    let n = 2 * words::size(m);
    let rest = 2 * n;
    area::fill(&mut area[n..rest], 0);
    let mut used = 0;
    let mut abstained = 0;
    for i in 0..n - 1 {
        projections::project(m, i + 1, area);
        let told = reading(m, r, rounds, left - used, &mut area[rest..]);
        let count = cast(m, i + 1, told, area)?;
        used += count.leaves;
        abstained += count.abstained;
    }
    Some(Count {
        leaves: used,
        abstained,
    })
}
