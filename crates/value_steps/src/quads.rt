// Four directions at a time, 4 k to 4 k + 3: they have the same highest one, and their low digits l = 0 to 3 only exchange the places of a
// block of 4. Blocks are read whole before a block is written, and the two of a turn one after the other, so that four numbers go together.
ghost use Rattle.std.specs.Prelude.{◌≡◌, suc, ◌+◌, ◌*◌, ◌^◌, ◌<◌, pos, ◌+ℤ◌};
ghost use Rattle.std.specs.Int.Bits.{bit_xor};
ghost use Rattle.words.specs.Written.{Written};
ghost use Rattle.area.specs.Area.{at, four_of};
ghost use Rattle.confidences.specs.Values.{front_of, Sums, ProjectsFour, four_projected};
ghost use Rattle.value_steps.specs.Pairs.{ValuePair, ValueBlocks, pair_joint};
ghost use Rattle.value_steps.specs.Shares.{Says, FourSays, FourHears, four_said, signed_at, speaking, voices_of, words_at, Addends};

use crate::magnitudes::joint;
use crate::said;
use direction::{highest_bit, insert_zero};

// ---- projections

// The joint value of the places x and y.
fn pair(area: &[i32], x: usize, y: usize) -> i32
    requires { ValuePair x y area.now }
    ensures { result ≡ pair_joint area.now x y }
{
    joint(area[x], area[y])
}

// Four entries of a projection, from c on: the joint values of the blocks at p and z.
fn join_four(area: &mut [i32], c: usize, p: usize, z: usize, l: usize)
    requires { ValueBlocks c p z l area.old }
    ensures { Written (pos 0) c 4 (λ i. pair_joint area.old (p + i) (z + bit_xor i l)) area.old area.new }
{
    let x0 = pair(area, p, z + l);
    let x1 = pair(area, p + 1, z + (1 ^ l));
    let x2 = pair(area, p + 2, z + (2 ^ l));
    let x3 = pair(area, p + 3, z + (3 ^ l));
    area::put_four(area, c, x0, x1, x2, x3);
}

// The four projections: a turn makes four entries of each.
pub fn project_four(m: usize, k: usize, area: &mut [i32])
    requires { ProjectsFour m k area.old }
    ensures { Written (pos 0) (4 * 2 ^ m) (4 * 2 ^ m) (four_projected m k (front_of (2 ^ suc m) area.old)) area.old area.new }
{
    let n = words::size(m);
    let w = 4 * k;
    let h = highest_bit(w);
    for j in 0..n / 4 {
        let q = 4 * j;
        let p = insert_zero(h, q);
        let z = p ^ w;
        join_four(area, 4 * n + q, p, z, 0);
        join_four(area, 5 * n + q, p, z, 1);
        join_four(area, 6 * n + q, p, z, 2);
        join_four(area, 7 * n + q, p, z, 3);
    }
}

// ---- shares

// Which of four directions have a word; the others abstain.
#[derive(Clone, Copy)]
pub struct Voices {
    pub a: bool,
    pub b: bool,
    pub c: bool,
    pub d: bool,
}

// What stands at o, by the sign at c, of a direction that has a word; 0 of one that abstains.
fn voiced(w: bool, area: &[i32], c: usize, o: usize) -> i32
    requires { Says c o area.now }
    ensures { result ≡ Rattle.value_steps.specs.Shares.voiced w (at area.now c) (at area.now o) }
{
    let t = said(area, c, o);
    if w { t } else { 0 }
}

// Where in a block the sign of direction l stands that counts for place i: of the representatives at i, of the other members at i XOR l.
fn sign_of<const OTHERS: bool>(i: usize, l: usize) -> usize
    ensures { result ≡ signed_at OTHERS i l }
{
    if OTHERS { i ^ l } else { i }
}

// What the four directions say of place i of a block, the other members in the block at o: their signs stand n apart from c on.
fn heard<const OTHERS: bool>(area: &[i32], n: usize, c: usize, o: usize, i: usize, v: Voices) -> i32
    requires four_says { FourSays n c o area.now }
    requires i_bound { i < 4 }
    ensures { result ≡ four_said (voices_of v) (signed_at OTHERS i) n c o area.now i }
{
    let s1 = sign_of::<OTHERS>(i, 1);
    let s2 = sign_of::<OTHERS>(i, 2);
    let s3 = sign_of::<OTHERS>(i, 3);
    let t0 = voiced(v.a, area, c + i, o + i);
    let t1 = voiced(v.b, area, c + n + s1, o + (i ^ 1));
    let t2 = voiced(v.c, area, c + 2 * n + s2, o + (i ^ 2));
    let t3 = voiced(v.d, area, c + 3 * n + s3, o + (i ^ 3));
    t0 + t1 + t2 + t3
}

// Adds v0 to v3 to the sums from r on.
fn add_four(area: &mut [i32], r: usize, v0: i32, v1: i32, v2: i32, v3: i32)
    requires { Addends r v0 v1 v2 v3 area.old }
    ensures { Written (pos 0) r 4 (λ i. at area.old (r + i) +ℤ four_of v0 v1 v2 v3 i) area.old area.new }
{
    let a0 = area[r] + v0;
    let a1 = area[r + 1] + v1;
    let a2 = area[r + 2] + v2;
    let a3 = area[r + 3] + v3;
    area::put_four(area, r, a0, a1, a2, a3);
}

// Adds to the sums from r on what the four directions say of the places of a block, the representatives or the others; the other members are in
// the block at o.
fn hear_four<const OTHERS: bool>(
    area: &mut [i32],
    n: usize,
    c: usize,
    o: usize,
    r: usize,
    v: Voices,
)
    requires { FourHears n c o r area.old }
    ensures { Written (pos 0) r 4 (λ i. at area.old (r + i) +ℤ four_said (voices_of v) (signed_at OTHERS i) n c o area.old i) area.old area.new }
{
    let v0 = heard::<OTHERS>(area, n, c, o, 0, v);
    let v1 = heard::<OTHERS>(area, n, c, o, 1, v);
    let v2 = heard::<OTHERS>(area, n, c, o, 2, v);
    let v3 = heard::<OTHERS>(area, n, c, o, 3, v);
    add_four(area, r, v0, v1, v2, v3);
}

// All four where ALL says so, and else those that have a word.
fn speakers<const ALL: bool>(v: Voices) -> Voices
    ensures { result ≡ speaking ALL v }
{
    if ALL {
        Voices {
            a: true,
            b: true,
            c: true,
            d: true,
        }
    } else {
        v
    }
}

// Adds to each place's sum what those of the four directions that have a word say of it, by the signs that stand where their projections were.
// Where ALL have one that is a literal, of which the compiler drops the tests.
pub fn share_four<const ALL: bool>(m: usize, k: usize, v: Voices, area: &mut [i32])
    requires projects_four { ProjectsFour m k area.old }
    requires sums { Sums (2 ^ suc m) area.old }
    ensures { Written (pos 0) (2 ^ suc m) (2 ^ suc m) (λ p. at area.old (2 ^ suc m + p) +ℤ words_at m k (voices_of (speaking ALL v)) area.old p) area.old area.new }
{
    let n = words::size(m);
    let w = 4 * k;
    let h = highest_bit(w);
    let speak = speakers::<ALL>(v);
    for j in 0..n / 4 {
        let q = 4 * j;
        let p = insert_zero(h, q);
        let z = p ^ w;
        hear_four::<false>(area, n, 4 * n + q, z, 2 * n + p, speak);
        hear_four::<true>(area, n, 4 * n + q, p, 2 * n + z, speak);
    }
}
