// Directions read at order 1, one at a time.
ghost use Rattle.std.specs.Prelude.{◌≡◌, suc, ◌+◌, ◌-◌, ◌^◌, ◌<◌, pos, ◌+ℤ◌};
ghost use Rattle.words.specs.Written.{Written};
ghost use Rattle.area.specs.Area.{at};
ghost use Rattle.confidences.specs.Values.{Projects, Sums};
ghost use Rattle.value_steps.specs.Shares.{word_at};
ghost use Rattle.value_readings.specs.Polls.{leaf, LeafAt, Poll, Polled, ReadAt, silence};

use value_orders::read_word;
use value_steps::{project, share};

// Reads the values from c on; whether they have a word, which then stands there by its signs.
pub fn read_part(m: usize, c: usize, area: &mut [i32]) -> bool
    requires { LeafAt m c area.old }
    ensures { ReadAt m c area.old area.new result }
{
    let n = words::size(m);
    read_word(m, false, &mut area[c..c + n])
}

// Adds what direction b says, where it has a word; how many abstain, 0 or 1.
pub fn share_word(m: usize, b: usize, c: usize, word: bool, area: &mut [i32]) -> usize
    requires projects { Projects m b c area.old }
    requires sums_2 { Sums (2 ^ suc m) area.old }
    ensures count { result ≡ silence word }
    ensures sums { Written (pos 0) (2 ^ suc m) (2 ^ suc m) (λ p. at area.old (2 ^ suc m + p) +ℤ word_at word b c area.old p) area.old area.new }
{
    if !word {
        return 1;
    }
    share(m, b, c, area);
    0
}

// Direction i + 1; whether it abstains.
pub fn hear(m: usize, i: usize, area: &mut [i32]) -> usize
    requires poll { Poll m (leaf m) i area.old }
    requires i_bound { i < 2 ^ suc m - 1 }
    ensures { Polled m (leaf m) i (i + 1) area.old area.new result }
{
    let c = 4 * words::size(m);
    project(m, i + 1, c, area);
    let word = read_part(m, c, area);
    share_word(m, i + 1, c, word, area)
}
