// The projection of a word by a direction, in the area.
#![tactic(auto)]

ghost use Rattle.std.specs.Prelude.{suc, ◌*◌, ◌^◌, pos};
ghost use Rattle.words.specs.Word.{bit};
ghost use Rattle.words.specs.Written.{Written};
ghost use Rattle.area.specs.Area.{word_of};
ghost use Rattle.direction.specs.Direction;
ghost use Rattle.cosets.specs.Votes.{Projects};

use direction::highest_bit;
use fours::project_fours;

pub mod fours;

// The projection by b, after the word and its votes. The low digits are a literal in each call, of which the compiler makes one shuffle.
pub fn project(m: usize, b: usize, area: &mut [i32])
    requires { Projects m b area.old }
    ensures { Written (pos 0) (4 * 2 ^ m) (2 ^ m) (λ q. pos (bit (Rattle.direction.specs.Direction.project m b (word_of (2 ^ suc m) area.old)) q)) area.old area.new }
{
    let h = highest_bit(b);
    let l = b % 4;
    if b < 4 {
        cosets::project_each(m, b, area);
    } else if l == 0 {
        project_fours(m, h, b, 0, area);
    } else if l == 1 {
        project_fours(m, h, b - 1, 1, area);
    } else if l == 2 {
        project_fours(m, h, b - 2, 2, area);
    } else {
        project_fours(m, h, b - 3, 3, area);
    }
}
