// The greatest correlation of a word by its halves, which are packed two to a number and transformed together: the last level of the
// transform is not made.
#![tactic(auto)]

ghost use Rattle.std.specs.Prelude.{◌≡◌, ◌+◌, ◌<◌, pos, nat_abs};
ghost use Rattle.words.specs.Written.{Written};
ghost use Rattle.area.specs.Area.{at};
ghost use Rattle.peaks.specs.Peaks.{joined, IsPeak};
ghost use Rattle.halves.specs.Halves.{first_in, second_of, size_of, Packed};

use peaks::Peak;

// The first number of a packed pair.
fn first_of(z: i32) -> i32
    requires { nat_abs z < 2097152 }
    ensures { result ≡ first_in z }
{
    ((z + 2098176) as u32 % 2048) as i32 - 1024
}

// The second number of a packed pair.
fn second_of(z: i32) -> i32
    requires { nat_abs z < 2097152 }
    ensures { result ≡ second_of z }
{
    ((z + 2098176) as u32 / 2048) as i32 - 1024
}

// The sizes of the h pairs in the front of the part, after them.
fn pair_sizes(h: usize, part: &mut [i32])
    requires { Packed h part.old }
    ensures { Written (pos 0) h h (λ i. pos (size_of (at part.old i))) part.old part.new }
{
    for i in 0..h {
        let z = part[i];
        part[h + i] = peaks::absolute(first_of(z)) + peaks::absolute(second_of(z));
    }
}

// The peak of the sums and differences of the h pairs packed in the front of the part.
pub fn search(h: usize, part: &mut [i32]) -> Option<Peak>
    requires { Packed h part.old }
    ensures { IsPeak (h + h) (joined h (λ j. first_in (at part.old j)) (λ j. second_of (at part.old j))) result }
{
    pair_sizes(h, part);
    let e = h + h;
    let g = peaks::greatest(&part[h..e]);
    let key = peaks::keys(&part[h..e], g);
    if 131071 < key {
        return None;
    }
    let j = (key % 65536) as usize;
    let z = part[j];
    peaks::peak_at(j, h + j, first_of(z), second_of(z)).ok()
}
