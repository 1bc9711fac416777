// The peak of a block's correlations, from its quads: the greatest key, and whether its mask is alone.
#![tactic(auto)]

ghost use Rattle.std.specs.Prelude.{◌≡◌, ◌+◌};
ghost use Rattle.peaks.specs.Peaks.{IsPeak};
ghost use Rattle.keys.specs.Keys.{BoundedAll};
ghost use Rattle.block_peak.specs.Sought.{value_at, lone_test, Sought};

use peaks::Peak;

// Whether the pair x, y of the greatest size g gives a mask that is alone. A size above half the places is, so that sizes are counted only
// where there is none.
fn is_alone(quads: &[i32], h: usize, g: u32, x: i32, y: i32) -> bool
    requires { BoundedAll quads.now }
    ensures { result ≡ lone_test h quads.now g x y }
{
    if h < g as usize {
        return true;
    }
    (keys::count_of(quads, g) == 1) & (x != 0) & (y != 0)
}

// The peak of the values of some quads, of which h is the number of pairs.
pub fn find_peak(h: usize, quads: &[i32]) -> Option<Peak>
    requires { Sought h quads.now }
    ensures { IsPeak (h + h) (value_at quads.now) result }
{
    let top = keys::greatest_key(quads) as u32;
    let g = top / 1024;
    let j = (top % 1024) as usize;
    let pair = quads::pair_at(j % 2, 0, quads[j / 4]);
    let x = pair.x;
    let y = pair.y;
    if !is_alone(quads, h, g, x, y) {
        return None;
    }
    peaks::peak_at(j, j + 2, x, y).ok()
}
