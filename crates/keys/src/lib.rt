// The greatest size of some quads, with the mask it stands for, and how often it occurs. A quad's two sizes are made at once, its numbers
// side by side in 8 bits each.
#![tactic(auto)]

ghost use Rattle.std.specs.Prelude.{◌≡◌, ◌/◌, ◌%◌, ◌^◌, ◌<◌, pos};
ghost use Rattle.quads.specs.Quads.{sum_size, difference_size, Bounded};
ghost use Rattle.keys.specs.Keys.{BoundedAll, pairs, offs, key_of, greatest_key, count_of};

// The sums and differences of a quad's numbers, each raised by 128, side by side.
fn pairs_of(z: i32) -> u32
    requires { Bounded z }
    ensures { result ≡ pairs z }
{
    let r = (z + 1077952576) as u32;
    let x = r & 16711935;
    let y = (r / 256) & 16711935;
    (x + y) + 256 * ((x + 8388736) - y)
}

// How far each of four bytes is from 128: the seven low bits, turned over and one more where the byte is below.
fn offs_of(f: u32) -> u32
    ensures { result ≡ offs f }
{
    let below = (2155905152 - (f & 2155905152)) / 128;
    (f ^ (2155905152 - below)) + below
}

// The sizes of a quad: that of its sums in the lowest byte, that of its differences in the next.
pub fn sizes_of(z: i32) -> u32
    requires { Bounded z }
    ensures { (result % 256 ≡ sum_size z) × (result / 256 % 256 ≡ difference_size z) }
{
    let a = offs_of(pairs_of(z));
    a + a / 65536
}

// The greater size of a quad with its mask.
fn key_of(z: i32, k: u32) -> i32
    requires { Bounded z × (k < 1023) }
    ensures { result ≡ pos (key_of z k) }
{
    let b = sizes_of(z);
    let s = (b % 256 * 1024 + k) as i32;
    let d = (b / 256 % 256 * 1024 + (k + 1)) as i32;
    if s < d { d } else { s }
}

// The greatest key.
pub fn greatest_key(quads: &[i32]) -> i32
    requires { BoundedAll quads.now }
    ensures { result ≡ pos (greatest_key quads.now) }
{
    let mut g: i32 = 0;
    // Counted beside the quads in 32 bits: from a place of 64 bits the compiler makes two masks at a time, not four.
    let mut k: u32 = 0;
    for z in quads {
        let x = key_of(*z, k);
        if g < x {
            g = x;
        }
        k += 4;
    }
    g
}

// How many sizes are g.
pub fn count_of(quads: &[i32], g: u32) -> u32
    requires { BoundedAll quads.now }
    ensures { result ≡ count_of quads.now g }
{
    let mut c: u32 = 0;
    for z in quads {
        let b = sizes_of(*z);
        c += u32::from(b % 256 == g) + u32::from(b / 256 % 256 == g);
    }
    c
}
