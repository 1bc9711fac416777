// Directions read at order 1, four at a time.
ghost use Rattle.std.specs.Prelude.{◌≡◌, suc, ◌+◌, ◌-◌, ◌*◌, ◌^◌, ◌≤◌, ◌<◌, pos, ◌+ℤ◌};
ghost use Rattle.words.specs.Written.{Written};
ghost use Rattle.area.specs.Area.{at};
ghost use Rattle.confidences.specs.Values.{ProjectsFour, Sums};
ghost use Rattle.value_steps.specs.Shares.{four_words, words_at};
ghost use Rattle.value_readings.specs.Polls.{leaf, Poll, Polled, silences};

use crate::rounds::leaves::read_part;
use value_steps::quads::{Voices, project_four, share_four};

// How many abstain, 0 or 1.
fn silence(word: bool) -> usize
    ensures { (result ≡ Rattle.value_readings.specs.Polls.silence word) × (result ≤ 1) }
{
    usize::from(!word)
}

// Adds what directions 4k to 4k + 3 say, each where it has a word; how many abstain. The four come apart: as one value they are packed and taken
// apart again before the first test.
fn share_words(m: usize, k: usize, a: bool, b: bool, c: bool, d: bool, area: &mut [i32]) -> usize
    requires projects_four { ProjectsFour m k area.old }
    requires sums_2 { Sums (2 ^ suc m) area.old }
    ensures count { result ≡ silences (four_words a b c d) }
    ensures sums { Written (pos 0) (2 ^ suc m) (2 ^ suc m) (λ p. at area.old (2 ^ suc m + p) +ℤ words_at m k (four_words a b c d) area.old p) area.old area.new }
{
    let v = Voices { a, b, c, d };
    if a & b & c & d {
        share_four::<true>(m, k, v, area);
        return 0;
    }
    share_four::<false>(m, k, v, area);
    silence(a) + silence(b) + silence(c) + silence(d)
}

// Directions 4k to 4k + 3; how many abstain.
pub fn hear_four(m: usize, k: usize, area: &mut [i32]) -> usize
    requires le_k { (1 ≤ k) × (4 * k < 2 ^ suc m) }
    requires poll { Poll m (leaf m) (4 * k - 1) area.old }
    ensures { Polled m (leaf m) (4 * k - 1) (4 * k + 3) area.old area.new result }
{
    let n = words::size(m);
    project_four(m, k, area);
    let a = read_part(m, 4 * n, area);
    let b = read_part(m, 5 * n, area);
    let c = read_part(m, 6 * n, area);
    let d = read_part(m, 7 * n, area);
    share_words(m, k, a, b, c, d, area)
}
