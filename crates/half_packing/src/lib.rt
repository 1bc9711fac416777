// The signs of a word's halves, packed two to a number.
#![tactic(auto)]

ghost use Rattle.std.specs.Prelude.{◌≡◌, ◌+◌, ◌*◌, ◌≤◌, length, pos};
ghost use Rattle.words.specs.Written.{Written};
ghost use Rattle.area.specs.Area.{Bits};
ghost use Rattle.halves.specs.Halves.{signs_packed};

// The signs of the word's halves, packed, after the word.
pub fn pack(h: usize, area: &mut [i32])
    requires { (h ≤ 512) × (4 * h ≡ length area.old) × Bits (h + h) area.old }
    ensures { Written (pos 0) (h + h) h (signs_packed h area.old) area.old area.new }
{
    for i in 0..h {
        let x = area[i] + 2048 * area[h + i];
        area[2 * h + i] = 2049 - 2 * x;
    }
}
