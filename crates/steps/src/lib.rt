// What a direction's answer does to the votes.
#![tactic(auto)]

ghost use Rattle.std.specs.Prelude.{◌≡◌, ℕ, suc, ◌+◌, ◌^◌, pos, ◌+ℤ◌};
ghost use Rattle.words.specs.Written.{Written};
ghost use Rattle.area.specs.Area.{at};
ghost use Rattle.cosets.specs.Votes.{Projects, Tally};
ghost use Rattle.told.specs.Told.{as_refused, numbers_in};
ghost use Rattle.steps.specs.Steps.{count_in, vote_of, Voter, Unmoved};

use told::{Noise, Told};

// The leaf count of a direction or a round, and how many directions abstained. There is none where the leaves left do not suffice.
#[derive(Clone, Copy, Debug, PartialEq, Eq)]
pub struct Count {
    pub leaves: usize,
    pub abstained: usize,
}

// The count of a direction that abstains, unless its leaves ran out.
pub fn abstain(why: Noise, leaves: usize) -> Option<Count>
    ensures { (k : ℕ) → result ≡ count_in (numbers_in (as_refused why k leaves)) }
{
    if let Noise::TooManyLeaves = why {
        return None;
    }
    Some(Count {
        leaves,
        abstained: 1,
    })
}

// Direction b's votes after its reading, its leaf count, and whether it abstains. A word kept as it was gives no votes, and its direction does
// not abstain.
pub fn cast(m: usize, b: usize, told: Told, area: &mut [i32]) -> Option<Count>
    requires projects { Projects m b area.old }
    requires tally { Tally (2 ^ suc m) b area.old }
    requires voter { Voter m told.answer area.old }
    requires unmoved { Unmoved m b area.old told }
    ensures counted { result ≡ count_in (numbers_in told.answer) }
    ensures voted { Written (pos 0) (2 ^ suc m) (2 ^ suc m) (λ p. at area.old (2 ^ suc m + p) +ℤ pos (vote_of m b area.old told.answer p)) area.old area.new }
{
    match told.answer {
        Ok(accepted) => {
            let count = Count {
                leaves: accepted.leaves,
                abstained: 0,
            };
            if told.kept {
                return Some(count);
            }
            votes::add_votes(m, b, area);
            Some(count)
        }
        Err(unread) => abstain(unread.why, unread.leaves),
    }
}
