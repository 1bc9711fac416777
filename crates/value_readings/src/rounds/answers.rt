// A direction after its reading at order 2 or above: the decoded word stands by bits from 4n on.
ghost use Rattle.std.specs.Prelude.{◌≡◌, suc, ◌*◌, ◌^◌, Ok};
ghost use Rattle.cosets.specs.Votes.{InProjection};
ghost use Rattle.told.specs.Told.{numbers_in};
ghost use Rattle.told.specs.declared.Accepted.{Accepted};
ghost use Rattle.steps.specs.Steps.{count_in, Voter};
ghost use Rattle.confidences.specs.Values.{Projects, Sums};
ghost use Rattle.value_readings.specs.Polls.{Heard};

use steps::{Count, abstain};
use told::{Accepted, Unread};
use value_orders::signs::to_signs;
use value_steps::share;

// Adds what direction b says by its bits.
fn share_bits(m: usize, b: usize, area: &mut [i32])
    requires projects { Projects m b (4 * 2 ^ m) area.old }
    requires sums { Sums (2 ^ suc m) area.old }
    requires in_projection { InProjection m area.old }
    ensures { (accepted : Accepted) → Heard m b (Ok accepted) area.old area.new }
{
    let n = words::size(m);
    let c = 4 * n;
    to_signs(&mut area[c..c + n]);
    share(m, b, c, area);
}

// Adds what direction b says, unless it abstains; its leaf count, and whether it abstains.
pub fn hear_answer(
    m: usize,
    b: usize,
    answer: Result<Accepted, Unread>,
    area: &mut [i32],
) -> Option<Count>
    requires projects { Projects m b (4 * 2 ^ m) area.old }
    requires sums { Sums (2 ^ suc m) area.old }
    requires voter { Voter m answer area.old }
    ensures counted { result ≡ count_in (numbers_in answer) }
    ensures heard { Heard m b answer area.old area.new }
{
    match answer {
        Ok(accepted) => {
            share_bits(m, b, area);
            Some(Count {
                leaves: accepted.leaves,
                abstained: 0,
            })
        }
        Err(unread) => abstain(unread.why, unread.leaves),
    }
}
