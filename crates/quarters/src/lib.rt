// The greatest correlation of a word of 16 to 128 places. The four quarters of the word are packed in one number and transformed together;
// the last two levels of the transform are not made: the sums and differences of the quarters are pairs, whose sizes are searched.
#![tactic(auto)]

ghost use Rattle.std.specs.Prelude.{◌+◌};
ghost use Rattle.peaks.specs.Peaks.{joined, IsPeak};
ghost use Rattle.quarter_sizes.specs.Sized.{Quads};
ghost use Rattle.quarters.specs.Quarters.{firsts, lasts};

use peaks::Peak;

// The peak of the sums and differences of the q quads packed in the front of the part. The place of a quad is taken by a mask, which the
// compiler makes without a branch or a division.
pub fn search(q: usize, part: &mut [i32]) -> Option<Peak>
    requires { Quads q part.old }
    ensures { IsPeak ((q + q) + (q + q)) (joined (q + q) (firsts q part.old) (lasts q part.old)) result }
{
    quarter_sizes::sizes(q, part);
    let h = q + q;
    let e = q + h;
    let g = peaks::greatest(&part[q..e]);
    let key = peaks::keys(&part[q..e], g);
    if 131071 < key {
        return None;
    }
    let j = (key % 65536) as usize;
    let low = j & (q - 1);
    let p = quads::pair_at(j, low, part[low]);
    peaks::peak_at(j, h + j, p.x, p.y).ok()
}
