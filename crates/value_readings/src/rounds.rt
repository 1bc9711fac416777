// Rounds of confidences. The values of exponent m + 1 stand in the first 2n numbers of the area, n = 2^m; the next 2n are sums, and
// projections stand from 4n on. A round whose directions are read at order 1 hears them four at a time.
ghost use Rattle.std.specs.Prelude.{◌≡◌, ◌+◌};
ghost use Rattle.value_readings.specs.Polls.{leaf, Next, Poll, Polled, Renewed, Rounded, together};

use ends::{clear, conclude};
use fours::hear_four;
use leaves::hear;
use steps::Count;

pub mod answers;
pub mod ends;
mod fours;
mod leaves;

// How many directions are heard next, after so many: of the first three one, then four.
fn next_few(heard: usize) -> usize
    ensures { result ≡ together heard }
{
    if heard < 3 { 1 } else { 4 }
}

// These directions; how many abstain.
fn hear_few(m: usize, heard: usize, area: &mut [i32]) -> usize
    requires poll { Poll m (leaf m) heard area.old }
    requires next { Next m heard }
    ensures { Polled m (leaf m) heard (heard + together heard) area.old area.new result }
{
    if heard < 3 {
        return hear(m, heard, area);
    }
    hear_four(m, (heard + 1) / 4, area)
}

// A round whose directions are read at order 1. Each is a leaf: they are counted as they are read, and where fewer are left than are heard next
// the round ends.
pub fn leaf_round(m: usize, left: usize, area: &mut [i32]) -> Option<Count>
    requires { Rounded m area.old }
    ensures { Renewed m left (leaf m) area.old area.new result }
{
    let directions = 2 * words::size(m) - 1;
    clear(m, area);
    let mut used = 0;
    let mut abstained = 0;
    // Counted by hand: each of the first three directions is heard alone, and then four together.
    while used < directions {
        let few = next_few(used);
        if left - used < few {
            return None;
        }
        abstained += hear_few(m, used, area);
        used += few;
    }
    conclude(m, abstained, area);
    Some(Count {
        leaves: used,
        abstained,
    })
}
