// Projections by blocks of 4 cosets, for directions from 4 on: the low digits l of the direction, b = w + l, only exchange
// the places of a block.
ghost use Rattle.std.specs.Prelude.{◌≡◌, suc, ◌+◌, ◌*◌, ◌^◌, pos};
ghost use Rattle.std.specs.Int.Bits.{bit_xor};
ghost use Rattle.words.specs.Word.{bit};
ghost use Rattle.words.specs.Written.{Written};
ghost use Rattle.area.specs.Area.{at, word_of};
ghost use Rattle.direction.specs.Direction;
ghost use Rattle.cosets.specs.Votes.{Projects};
ghost use Rattle.projections.specs.Fours.{InFours, bit_sum, BitPair, TwoBlocks, pair_sum};

// The sum of the bits i of x and i XOR l of y.
pub fn pair(x: &[i32], y: &[i32], i: usize, l: usize) -> i32
    requires { BitPair i l x.now y.now }
    ensures { result ≡ bit_sum (at x.now i) (at y.now (bit_xor i l)) }
{
    x[i] ^ y[i ^ l]
}

// Four entries of the projection, from c on: the sums of the blocks at p and z.
fn project_four(area: &mut [i32], c: usize, p: usize, z: usize, l: usize)
    requires { TwoBlocks c p z l area.old }
    ensures { Written (pos 0) c 4 (pair_sum p z l area.old) area.old area.new }
{
    let x = &area[p..p + 4];
    let y = &area[z..z + 4];
    let x0 = pair(x, y, 0, l);
    let x1 = pair(x, y, 1, l);
    let x2 = pair(x, y, 2, l);
    let x3 = pair(x, y, 3, l);
    area::put_four(area, c, x0, x1, x2, x3);
}

// The projection by w + l.
pub fn project_fours(m: usize, h: usize, w: usize, l: usize, area: &mut [i32])
    requires in_fours { InFours h w l }
    requires projects { Projects m (w + l) area.old }
    ensures { Written (pos 0) (4 * 2 ^ m) (2 ^ m) (λ q. pos (bit (Rattle.direction.specs.Direction.project m (w + l) (word_of (2 ^ suc m) area.old)) q)) area.old area.new }
{
    let n = words::size(m);
    for k in 0..n / 4 {
        let q = 4 * k;
        let p = direction::insert_zero(h, q);
        project_four(area, 4 * n + q, p, p ^ w, l);
    }
}
