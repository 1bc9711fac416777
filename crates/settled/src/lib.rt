// The codeword test of a word in the area of numbers.
#![tactic(auto)]

ghost use Rattle.std.specs.Prelude.{◌≡◌, ◌+◌, ◌*◌, ◌^◌, ◌≤◌, length, pos};
ghost use Rattle.words.specs.Written.{Written};
ghost use Rattle.area.specs.Area.{at, size_at, Bits};
ghost use Rattle.code.specs.Code.{low_test};
ghost use Rattle.settled.specs.Numbers.{TestedIn};

use messages::degree;
use parities::transform;

// Copies the first n numbers to the next n.
fn copy_on(area: &mut [i32], n: usize)
    requires { (n + n ≤ length area.old) × Bits n area.old }
    ensures { Written (pos 0) n n (at area.old) area.old area.new }
{
    area.copy_within(0..n, n);
}

// Whether the bits at the masks of degree above r are 0.
fn is_low(r: usize, a: &[i32]) -> bool
    requires { (length a.now ≤ 1024) × Bits (length a.now) a.now }
    ensures { result ≡ low_test r (size_at a.now) (length a.now) }
{
    let mut low = true;
    for (p, x) in a.iter().enumerate() {
        low = low & ((usize::from(degree(p)) <= r) | (*x == 0));
    }
    low
}

// Whether the word of exponent m in the front of the area is a codeword of order r. The numbers after it are worked in.
pub fn holds_codeword(m: usize, r: usize, area: &mut [i32]) -> bool
    requires { (m ≤ 10) × (2 * 2 ^ m ≤ length area.old) × Bits (2 ^ m) area.old }
    ensures { TestedIn m r area.old area.new result }
{
    let n = words::size(m);
    copy_on(area, n);
    let e = n + n;
    transform(&mut area[n..e], m);
    is_low(r, &area[n..e])
}
