// The first order codewords in bytes, eight at a time.
#![tactic(auto)]

ghost use Rattle.std.specs.Prelude.{◌≡◌, ℕ, ◌+◌, ◌/◌, ◌%◌, ◌^◌, ◌≤◌, ◌<◌, length, nat_abs};
ghost use Rattle.std.specs.Int.Count.{ones};
ghost use Rattle.words.specs.Sum.{tabulate};
ghost use Rattle.words.specs.Ones.{affine_bit};
ghost use Rattle.words.specs.Written.{Written};
ghost use Rattle.area.specs.Area.{IsBit};
ghost use Rattle.octets.specs.Octets.{octet, AreBits};

// The parity of the ones in u, in the 64 bits of an octet; `affine` has it in the 32 signed ones of the area.
fn parity(u: usize) -> u64
    requires { u < 2 ^ 32 }
    ensures { result ≡ ones u % 2 }
{
    u64::from(u32::count_ones(u as u32) % 2)
}

// The bit t added to each of eight bits.
fn add_bit(x: u64, t: u64) -> u64
    requires { t < 2 }
    ensures { (f : ℕ → ℕ) → AreBits f → x ≡ octet f → result ≡ octet (λ i. (f i + t) % 2) }
{
    x ^ t * 72340172838076673
}

// The first eight bits of the codeword of mask u and constant s: the parities of u AND 1, 2 and 4, each added at the places with that digit.
fn first_eight(u: usize, s: i32) -> u64
    requires { IsBit s }
    ensures { result ≡ octet (affine_bit u (nat_abs s)) }
{
    let a = s as u64 * 72340172838076673 ^ parity(u & 1) * 72058693566333184;
    let b = parity(u & 2) * 72339069031481344 ^ parity(u & 4) * 72340172821233664;
    a ^ b
}

// The bytes of x, from b on.
fn write_eight(out: &mut [u8], b: usize, x: u64)
    requires { b + 8 ≤ length out.old }
    ensures { Written 0 b 8 (λ i. x / 256 ^ i % 256) out.old out.new }
{
    out[b] = (x % 256) as u8;
    out[b + 1] = (x / 256 % 256) as u8;
    out[b + 2] = (x / 65536 % 256) as u8;
    out[b + 3] = (x / 16777216 % 256) as u8;
    out[b + 4] = (x / 4294967296 % 256) as u8;
    out[b + 5] = (x / 1099511627776 % 256) as u8;
    out[b + 6] = (x / 281474976710656 % 256) as u8;
    out[b + 7] = (x / 72057594037927936 % 256) as u8;
}

// The first order codeword of mask u and constant s, in blocks of 16 bytes with one parity each.
pub fn write_affine(out: &mut [u8], u: usize, s: i32)
    requires { IsBit s × (u < 1024) × (length out.old % 16 ≡ 0) }
    ensures { out.new ≡ tabulate (length out.old) (affine_bit u (nat_abs s)) }
{
    let n = out.len();
    let x = first_eight(u, s);
    let y = add_bit(x, parity(u & 8));
    // By sixteen: counted in blocks, 32 places took 6 instructions more of 65.
    let mut b = 0;
    while b < n {
        let t = parity(u & b);
        write_eight(out, b, add_bit(x, t));
        write_eight(out, b + 8, add_bit(y, t));
        b += 16;
    }
}
