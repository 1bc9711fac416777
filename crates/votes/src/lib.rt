// The votes of a direction, in the area.
#![tactic(auto)]

ghost use Rattle.std.specs.Prelude.{suc, ◌+◌, ◌^◌, pos, ◌+ℤ◌};
ghost use Rattle.words.specs.Written.{Written};
ghost use Rattle.area.specs.Area.{at};
ghost use Rattle.cosets.specs.Votes.{Projects, Tally, InProjection, cast_vote};
ghost use Rattle.projections.specs.Fours.{InFours};

use direction::highest_bit;
use four_votes::vote_four;

// Adds the votes of the direction w + l, from 4 on, by blocks of 4 cosets. It is taken into each call, so that l is a literal there.
#[inline(always)]
pub fn vote_fours(m: usize, h: usize, w: usize, l: usize, area: &mut [i32])
    requires in_fours { InFours h w l }
    requires projects { Projects m (w + l) area.old }
    requires tally { Tally (2 ^ suc m) (w + l) area.old }
    requires in_projection { InProjection m area.old }
    ensures { Written (pos 0) (2 ^ suc m) (2 ^ suc m) (λ p. at area.old (2 ^ suc m + p) +ℤ pos (cast_vote m (w + l) area.old p)) area.old area.new }
{
    let n = words::size(m);
    for k in 0..n / 4 {
        let q = 4 * k;
        let p = direction::insert_zero(h, q);
        vote_four(area, n, q, p, p ^ w, l);
    }
}

// Adds direction b's votes. The low digits are a literal in each call, of which the compiler makes one shuffle.
pub fn add_votes(m: usize, b: usize, area: &mut [i32])
    requires projects { Projects m b area.old }
    requires tally { Tally (2 ^ suc m) b area.old }
    requires in_projection { InProjection m area.old }
    ensures { Written (pos 0) (2 ^ suc m) (2 ^ suc m) (λ p. at area.old (2 ^ suc m + p) +ℤ pos (cast_vote m b area.old p)) area.old area.new }
{
    let h = highest_bit(b);
    let l = b % 4;
    if b < 4 {
        cosets::vote_each(m, b, area);
    } else if l == 0 {
        vote_fours(m, h, b, 0, area);
    } else if l == 1 {
        vote_fours(m, h, b - 1, 1, area);
    } else if l == 2 {
        vote_fours(m, h, b - 2, 2, area);
    } else {
        vote_fours(m, h, b - 3, 3, area);
    }
}
