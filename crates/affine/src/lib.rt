// The first order codewords, written in the area.
#![tactic(auto)]

ghost use Rattle.std.specs.Prelude.{◌≡◌, ◌+◌, ◌%◌, ◌^◌, ◌<◌, length, pos, nat_abs};
ghost use Rattle.std.specs.Int.Bits.{bit_and};
ghost use Rattle.std.specs.Int.Count.{ones};
ghost use Rattle.words.specs.Sum.{tabulate};
ghost use Rattle.words.specs.Written.{Written};
ghost use Rattle.area.specs.Area.{IsBit};
ghost use Rattle.affine.specs.Affine.{affine_at, repeated, Repeats};

// The parity of the ones in u.
fn parity(u: usize) -> i32
    requires { u < 2 ^ 32 }
    ensures { result ≡ pos (ones u % 2) }
{
    (u32::count_ones(u as u32) % 2) as i32
}

// The first order codeword of mask u and constant s, a parity for each place.
fn by_place(a: &mut [i32], u: usize, s: i32)
    requires { IsBit s × (u < 2 ^ 32) }
    ensures { a.new ≡ tabulate (length a.old) (affine_at u s) }
{
    // By index: the place counts.
    for p in 0..a.len() {
        a[p] = s ^ parity(u & p);
    }
}

// Four places from b on: those from i on with the bit t added.
// All are read before any is written, so that the compiler takes them together.
fn repeat_four(a: &mut [i32], i: usize, b: usize, t: i32)
    requires { Repeats 4 i b t a.old }
    ensures { Written (pos 0) b 4 (repeated t i a.old) a.old a.new }
{
    let x0 = a[i] ^ t;
    let x1 = a[i + 1] ^ t;
    let x2 = a[i + 2] ^ t;
    let x3 = a[i + 3] ^ t;
    area::put_four(a, b, x0, x1, x2, x3);
}

// Eight places from b on: those from i on with the bit t added.
fn repeat_eight(a: &mut [i32], i: usize, b: usize, t: i32)
    requires { Repeats 8 i b t a.old }
    ensures { Written (pos 0) b 8 (repeated t i a.old) a.old a.new }
{
    repeat_four(a, i, b, t);
    repeat_four(a, i + 4, b + 4, t);
}

// The first order codeword of mask u and constant s: a parity for each of the first 4 places, one for the next 4, one for the next 8, and
// one for each further block of 16.
pub fn write_affine(a: &mut [i32], u: usize, s: i32)
    requires { IsBit s × (u < 1024) }
    ensures { a.new ≡ tabulate (length a.old) (λ p. pos ((nat_abs s + ones (bit_and u p)) % 2)) }
{
    let n = a.len();
    if n % 16 != 0 || n == 0 {
        by_place(a, u, s);
        return;
    }
    by_place(&mut a[0..4], u, s);
    repeat_four(a, 0, 4, parity(u & 4));
    repeat_eight(a, 0, 8, parity(u & 8));
    for k in 1..n / 16 {
        let b = 16 * k;
        let t = parity(u & b);
        repeat_eight(a, 0, b, t);
        repeat_eight(a, 8, b + 8, t);
    }
}
