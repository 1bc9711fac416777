// Words by the signs of numbers, where bit 1 is a number below 0.
ghost use Rattle.std.specs.Prelude.{◌+◌, ◌%◌, ◌≤◌, ◌<◌, ◌≡◌, length, pos, neg_ℤ, nat_abs};
ghost use Rattle.std.specs.Int.Bits.{bit_and};
ghost use Rattle.std.specs.Int.Count.{ones};
ghost use Rattle.words.specs.Sum.{tabulate};
ghost use Rattle.words.specs.Written.{Written};
ghost use Rattle.area.specs.Area.{at, Bits, IsBit};
ghost use Rattle.hadamard.specs.Correlation.{constant_of};
ghost use Rattle.value_orders.specs.Doubling.{Doubles, PowerOfTwo, turned};

// Each bit becomes a number with its sign: 0 or -1.
pub fn to_signs(part: &mut [i32])
    requires { Bits (length part.old) part.old }
    ensures { Written (pos 0) 0 (length part.old) (λ p. neg_ℤ (at part.old p)) part.old part.new }
{
    for z in part {
        *z = -*z;
    }
}

// Each of the first n numbers becomes the bit of its sign.
pub fn to_bits(n: usize, area: &mut [i32])
    requires { n ≤ length area.old }
    ensures { Written (pos 0) 0 n (λ p. pos (constant_of (at area.old p))) area.old area.new }
{
    for p in 0..n {
        area[p] = i32::from(area[p] < 0);
    }
}

// Each of the h signs from h on: the one h below it, turned where t is -1.
fn repeat_signs(part: &mut [i32], h: usize, t: i32)
    requires { Doubles h t part.old }
    ensures { Written (pos 0) h h (λ i. turned t (at part.old i)) part.old part.new }
{
    for i in 0..h {
        part[h + i] = part[i] ^ t;
    }
}

// The first order codeword of mask u and constant s by its signs: the first 16 by their bits, then each half from the one below it.
pub fn write_signs(part: &mut [i32], u: usize, s: i32)
    requires { IsBit s × (u < 1024) × PowerOfTwo (length part.old) }
    ensures { part.new ≡ tabulate (length part.old) (λ p. neg_ℤ (pos ((nat_abs s + ones (bit_and u p)) % 2))) }
{
    let n = part.len();
    if n < 16 {
        affine::write_affine(part, u, s);
        to_signs(part);
        return;
    }
    affine::write_affine(&mut part[0..16], u, s);
    to_signs(&mut part[0..16]);
    // The part written doubles in each turn, as no range counts.
    let mut h = 16;
    while h < n {
        let t: i32 = if u & h == 0 { 0 } else { -1 };
        repeat_signs(part, h, t);
        h = h + h;
    }
}
