// Projection and votes in the area, coset by coset.
#![tactic(auto)]

ghost use Rattle.std.specs.Prelude.{suc, ◌+◌, ◌*◌, ◌^◌, pos, ◌+ℤ◌};
ghost use Rattle.words.specs.Word.{bit};
ghost use Rattle.words.specs.Written.{Written};
ghost use Rattle.area.specs.Area.{at, word_of};
ghost use Rattle.direction.specs.Direction;
ghost use Rattle.cosets.specs.Votes.{Projects, Tally, InProjection, cast_vote};

use direction::{highest_bit, insert_zero};

// The projection by b, coset by coset.
pub fn project_each(m: usize, b: usize, area: &mut [i32])
    requires { Projects m b area.old }
    ensures { Written (pos 0) (4 * 2 ^ m) (2 ^ m) (λ q. pos (bit (Rattle.direction.specs.Direction.project m b (word_of (2 ^ suc m) area.old)) q)) area.old area.new }
{
    let n = words::size(m);
    let h = highest_bit(b);
    for q in 0..n {
        let p = insert_zero(h, q);
        area[4 * n + q] = area[p] ^ area[p ^ b];
    }
}

// Adds direction b's votes, coset by coset: both members of a coset get the same vote.
pub fn vote_each(m: usize, b: usize, area: &mut [i32])
    requires projects { Projects m b area.old }
    requires tally { Tally (2 ^ suc m) b area.old }
    requires in_projection { InProjection m area.old }
    ensures { Written (pos 0) (2 ^ suc m) (2 ^ suc m) (λ p. at area.old (2 ^ suc m + p) +ℤ pos (cast_vote m b area.old p)) area.old area.new }
{
    let n = words::size(m);
    let h = highest_bit(b);
    for q in 0..n {
        let p = insert_zero(h, q);
        let vote = area[4 * n + q] ^ (area[p] ^ area[p ^ b]);
        area[2 * n + p] += vote;
        area[2 * n + (p ^ b)] += vote;
    }
}
