// The votes of a block of 4 cosets: the low digits l of the direction only exchange the places of a block.
#![tactic(auto)]

ghost use Rattle.std.specs.Prelude.{◌≡◌, ◌<◌, length, pos, ◌+ℤ◌};
ghost use Rattle.std.specs.Int.Bits.{bit_xor};
ghost use Rattle.words.specs.Written.{Written};
ghost use Rattle.area.specs.Area.{at, IsBit, four_of};
ghost use Rattle.projections.specs.Fours.{bit_sum, BitPair};
ghost use Rattle.four_votes.specs.FourVotes.{Addends, FourVotes, FourVoted};

// Adds v0 to v3 to the four votes at 0 XOR l to 3 XOR l.
fn add_four(part: &mut [i32], l: usize, v0: i32, v1: i32, v2: i32, v3: i32)
    requires { Addends l v0 v1 v2 v3 part.old }
    ensures { Written (pos 0) 0 4 (λ j. at part.old j +ℤ four_of v0 v1 v2 v3 (bit_xor j l)) part.old part.new }
{
    let a0 = part[l] + v0;
    let a1 = part[1 ^ l] + v1;
    let a2 = part[2 ^ l] + v2;
    let a3 = part[3 ^ l] + v3;
    part[l] = a0;
    part[1 ^ l] = a1;
    part[2 ^ l] = a2;
    part[3 ^ l] = a3;
}

// The vote by the decoded bit i of d, on the bits i of x and i XOR l of y.
fn vote(d: &[i32], x: &[i32], y: &[i32], i: usize, l: usize) -> i32
    requires bit_pair { BitPair i l x.now y.now }
    requires i_in_bounds { (i < length d.now) × IsBit (at d.now i) }
    ensures { result ≡ bit_sum (at d.now i) (bit_sum (at x.now i) (at y.now (bit_xor i l))) }
{
    d[i] ^ projections::fours::pair(x, y, i, l)
}

// Adds the votes of the cosets q to q + 3, whose members are the blocks at p and z.
pub fn vote_four(area: &mut [i32], n: usize, q: usize, p: usize, z: usize, l: usize)
    requires { FourVotes n q p z l area.old }
    ensures { FourVoted n q p z l area.old area.new }
{
    let c = 4 * n + q;
    let d = &area[c..c + 4];
    let x = &area[p..p + 4];
    let y = &area[z..z + 4];
    let v0 = vote(d, x, y, 0, l);
    let v1 = vote(d, x, y, 1, l);
    let v2 = vote(d, x, y, 2, l);
    let v3 = vote(d, x, y, 3, l);
    let r = 2 * n + p;
    add_four(&mut area[r..r + 4], 0, v0, v1, v2, v3);
    let s = 2 * n + z;
    add_four(&mut area[s..s + 4], l, v0, v1, v2, v3);
}
