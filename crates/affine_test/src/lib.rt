// Whether the word in the front of the area is a first order codeword, level by level: each half of its places goes on as the one below it,
// or as its complement.
#![tactic(auto)]

ghost use Rattle.std.specs.Prelude.{true, ◌≡◌, ◌+◌, ◌%◌, ◌^◌, ◌≤◌, ◌<◌, ℕ, ℤ, length, nat_abs, FitsSigned};
ghost use Rattle.std.specs.Int.{w32};
ghost use Rattle.area.specs.Area.{at, Bits, IsBit, word_of};
ghost use Rattle.code.specs.Code.{codeword_test};
ghost use Rattle.code.specs.FirstOrder.{levels_test};
ghost use Rattle.code.specs.FirstOrder;
ghost use Rattle.affine_test.specs.Marks.{Marked, mark_at};
ghost use Rattle.affine_test.specs.MarkLaws.{low_bit, bit_fits};

// How a number stands for a bit.
pub trait Mark {
    ghost bit_of: { ℤ → ℕ };

    ghost Right: { ℤ → Type 0 };

    fn bit(x: i32) -> u32
        requires { Right x }
        ensures { result ≡ bit_of x };

    ghost low: { (x : ℤ) → Right x → bit_of x < 2 };

    ghost fits: { (x : ℤ) → Right x → FitsSigned w32 x };
}

// The number is the bit.
struct Plain;

impl Mark for Plain {
    ghost bit_of = { nat_abs };

    ghost Right = { IsBit };

    ghost low = { low_bit };

    ghost fits = { bit_fits };

    fn bit(x: i32) -> u32 {
        x as u32
    }
}

// The bits at the places i and j, added.
pub fn added<M: Mark>(i: usize, j: usize, area: &[i32]) -> u32
    requires first { (i < length area.now) × M.Right (at area.now i) }
    requires second { (j < length area.now) × M.Right (at area.now j) }
    ensures { result ≡ (mark_at M.bit_of area.now i + mark_at M.bit_of area.now j) % 2 }
{
    M::bit(area[i]) ^ M::bit(area[j])
}

// Whether the places h to 2h - 1 are the first h with one bit added to all.
fn repeats<M: Mark>(h: usize, area: &[i32]) -> bool
    requires { (0 < h) × Marked M.Right (h + h) area.now }
    ensures { result ≡ Rattle.code.specs.FirstOrder.repeats (mark_at M.bit_of area.now) h }
{
    let t = added::<M>(0, h, area);
    let mut same = true;
    for i in 0..h {
        same = same & (added::<M>(i, h + i, area) == t);
    }
    same
}

// The levels of the first eight places. One test of all of them is seldom passed by a word that is no codeword, so that the processor
// foresees it.
pub fn first_levels<M: Mark>(area: &[i32]) -> bool
    requires { Marked M.Right 8 area.now }
    ensures { result ≡ levels_test 3 (mark_at M.bit_of area.now) }
{
    repeats::<M>(1, area) & repeats::<M>(2, area) & repeats::<M>(4, area)
}

// The levels from `first` on, where those below pass.
pub fn levels_from<M: Mark>(first: usize, m: usize, area: &[i32]) -> bool
    requires first_le_m { (first ≤ m) × (m ≤ 10) × Marked M.Right (2 ^ m) area.now }
    requires area_value { levels_test first (mark_at M.bit_of area.now) ≡ true }
    ensures { result ≡ levels_test m (mark_at M.bit_of area.now) }
{
    for k in first..m {
        if !repeats::<M>(words::size(k), area) {
            return false;
        }
    }
    true
}

// Whether the word is a first order codeword.
pub fn is_affine(m: usize, area: &[i32]) -> bool
    requires { (m ≤ 10) × Bits (2 ^ m) area.now }
    ensures { result ≡ codeword_test m 1 (word_of (2 ^ m) area.now) }
{
    if m < 3 {
        return levels_from::<Plain>(0, m, area);
    }
    if !first_levels::<Plain>(area) {
        return false;
    }
    levels_from::<Plain>(3, m, area)
}
