// The steps of a round of confidences: projections and shares of the sums, a direction at a time or four.
#![tactic(auto)]

ghost use Rattle.std.specs.Prelude.{◌≡◌, suc, ◌+◌, ◌*◌, ◌^◌, pos, ◌+ℤ◌};
ghost use Rattle.words.specs.Written.{Written};
ghost use Rattle.area.specs.Area.{at};
ghost use Rattle.confidences.specs.Confidences.{project_values};
ghost use Rattle.confidences.specs.Values.{front_of, Projects, Sums, heard_at};
ghost use Rattle.value_steps.specs.Shares.{Says, Hears};

use direction::{highest_bit, insert_zero};
use magnitudes::{joint, turned};

pub mod magnitudes;
pub mod quads;

// The projection by b, written from c on.
pub fn project(m: usize, b: usize, c: usize, area: &mut [i32])
    requires { Projects m b c area.old }
    ensures { Written (pos 0) c (2 ^ m) (at (project_values m b (front_of (2 ^ suc m) area.old))) area.old area.new }
{
    let n = words::size(m);
    let h = highest_bit(b);
    // To q != n: of q < n, n a power of 2, the compiler makes a shift in every turn.
    let mut q = 0;
    while q != n {
        let p = insert_zero(h, q);
        let y = area[p];
        let z = area[p ^ b];
        area[c + q] = joint(y, z);
        q += 1;
    }
}

// What stands at o, by the sign at c.
fn said(area: &[i32], c: usize, o: usize) -> i32
    requires { Says c o area.now }
    ensures { result ≡ Rattle.value_steps.specs.Shares.said (at area.now c) (at area.now o) }
{
    let s = area[c];
    let z = area[o];
    turned(s, z)
}

// Adds to the sum at r what stands at o, by the sign at c.
fn hear(area: &mut [i32], c: usize, o: usize, r: usize)
    requires { Hears c o r area.old }
    ensures { Written (pos 0) r 1 (λ _. at area.old r +ℤ Rattle.value_steps.specs.Shares.said (at area.old c) (at area.old o)) area.old area.new }
{
    let t = said(area, c, o);
    area[r] = area[r] + t;
}

// Adds to each place's sum what direction b says of it, by the signs from c on: each member of a coset hears the other.
pub fn share(m: usize, b: usize, c: usize, area: &mut [i32])
    requires projects { Projects m b c area.old }
    requires sums { Sums (2 ^ suc m) area.old }
    ensures { Written (pos 0) (2 ^ suc m) (2 ^ suc m) (λ p. at area.old (2 ^ suc m + p) +ℤ heard_at b c area.old p) area.old area.new }
{
    let n = words::size(m);
    let h = highest_bit(b);
    // To q != n: of q < n, n a power of 2, the compiler makes a shift in every turn.
    let mut q = 0;
    while q != n {
        let p = insert_zero(h, q);
        let o = p ^ b;
        hear(area, c + q, o, 2 * n + p);
        hear(area, c + q, p, 2 * n + o);
        q += 1;
    }
}
