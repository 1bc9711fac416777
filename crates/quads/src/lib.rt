// Four numbers packed in one: the numbers of a quad, and the pairs that their sums and their differences are.
#![tactic(auto)]

ghost use Rattle.std.specs.Prelude.{cond, ◌≡◌, ◌<◌, eqb};
ghost use Rattle.quads.specs.Quads.{number_of, first_sum, last_sum, first_difference, last_difference, Raisable};

// The number of weight w in a quad.
fn number_of(z: i32, w: u32) -> i32
    requires { Raisable z × (0 < w) }
    ensures { result ≡ number_of w z }
{
    ((z + 1077952576) as u32 / w % 256) as i32 - 64
}

// Two numbers, of which the peak is the sum or the difference.
#[derive(Clone, Copy)]
pub struct Pair {
    pub x: i32,
    pub y: i32,
}

// The pair at j of a quad that stands at `low`: its sums where they are the same place, its differences where they are not.
pub fn pair_at(j: usize, low: usize, z: i32) -> Pair
    requires { Raisable z }
    ensures { (result.x ≡ cond (eqb j low) (first_sum z) (first_difference z)) × (result.y ≡ cond (eqb j low) (last_sum z) (last_difference z)) }
{
    let a = number_of(z, 1);
    let b = number_of(z, 256);
    let c = number_of(z, 65536);
    let d = number_of(z, 16777216);
    let x = if j == low { a + b } else { a - b };
    let y = if j == low { c + d } else { c - d };
    Pair { x, y }
}
