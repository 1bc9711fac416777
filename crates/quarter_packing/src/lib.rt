// The signs of a word's quarters, packed four to a number.
#![tactic(auto)]

ghost use Rattle.std.specs.Prelude.{◌≡◌, ◌+◌, ◌*◌, ◌≤◌, ◌<◌, pos};
ghost use Rattle.words.specs.Written.{Written};
ghost use Rattle.quarter_packing.specs.QuarterSigns.{quad_signs, QuarterBits};

// The signs of the bits i, q + i, 2q + i and 3q + i, packed.
fn quad_at(q: usize, i: usize, area: &[i32]) -> i32
    requires { (i < q) × QuarterBits q area.now }
    ensures { result ≡ quad_signs q area.now i }
{
    let x = area[i] + 256 * area[q + i];
    let y = area[2 * q + i] + 256 * area[3 * q + i];
    16843009 - 2 * (x + 65536 * y)
}

// Four quads of signs from i on. All are made before any is written, so that the compiler takes them together.
fn pack_four(q: usize, i: usize, area: &mut [i32])
    requires { (i + 4 ≤ q) × QuarterBits q area.old }
    ensures { Written (pos 0) (4 * q + i) 4 (λ k. quad_signs q area.old (i + k)) area.old area.new }
{
    let z0 = quad_at(q, i, area);
    let z1 = quad_at(q, i + 1, area);
    let z2 = quad_at(q, i + 2, area);
    let z3 = quad_at(q, i + 3, area);
    area::put_four(area, 4 * q + i, z0, z1, z2, z3);
}

// The signs of the word's quarters, packed, after the word.
pub fn pack(q: usize, area: &mut [i32])
    requires { QuarterBits q area.old }
    ensures { Written (pos 0) (4 * q) q (quad_signs q area.old) area.old area.new }
{
    for k in 0..q / 4 {
        pack_four(q, 4 * k, area);
    }
}
