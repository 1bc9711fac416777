// A block's bytes taken four to a number, without the area's numbers between, and transformed together.
#![tactic(auto)]

ghost use Rattle.std.specs.Prelude.{◌≡◌, ◌+◌, ◌*◌, ◌^◌, ◌≤◌, length, take};
ghost use borrow.Rule.Slice.PartMut.{put_mid};
ghost use Rattle.words.specs.Sum.{tabulate};
ghost use Rattle.words.specs.Butterflies.{halved};
ghost use Rattle.hadamard.specs.Correlation.{correlation};
ghost use Rattle.hadamard.specs.Transform.{sums};
ghost use Rattle.byte_quads.specs.ByteQuads.{quad_at, Bytes};
ghost use Rattle.blocks.specs.Blocks.{Block, Loaded};

// Eight quads from i on, transformed. All are made before any is written, so that the compiler takes them together and keeps them out of the
// area until they are transformed.
fn load_eight(word: &[u8], i: usize, area: &mut [i32])
    requires i_in_bounds { (4 * i + 32 ≤ length word.now) × (i + 8 ≤ length area.old) }
    requires bytes { Bytes word.now }
    ensures { area.new ≡ put_mid i 8 area.old (halved sums 3 (tabulate 8 (λ k. quad_at word.now (i + k)))) }
{
    let z0 = byte_quads::quad_at(word, i);
    let z1 = byte_quads::quad_at(word, i + 1);
    let z2 = byte_quads::quad_at(word, i + 2);
    let z3 = byte_quads::quad_at(word, i + 3);
    let z4 = byte_quads::quad_at(word, i + 4);
    let z5 = byte_quads::quad_at(word, i + 5);
    let z6 = byte_quads::quad_at(word, i + 6);
    let z7 = byte_quads::quad_at(word, i + 7);
    area::put_four(area, i, z0, z1, z2, z3);
    area::put_four(area, i + 4, z4, z5, z6, z7);
    let e = i + 8;
    correlations::eight(&mut area[i..e]);
}

// The quads of the block, each eight of them transformed.
fn load(k: usize, word: &[u8], area: &mut [i32])
    requires { Block k word.now area.old }
    ensures { Loaded k word.now (2 ^ k) area.new }
{
    let q = words::size(k);
    // By eight: counted in blocks, the reading of 32 places took 8 instructions more of 321.
    let mut i = 0;
    while i < q {
        load_eight(word, i, area);
        i += 8;
    }
}

// The correlations of the block's quads, in the front of the area.
pub fn correlate(k: usize, word: &[u8], area: &mut [i32])
    requires { Block k word.now area.old }
    ensures { take (2 ^ k) area.new ≡ tabulate (2 ^ k) (correlation k (quad_at word.now)) }
{
    load(k, word, area);
    let q = words::size(k);
    correlations::levels(&mut area[0..q], 8, q);
}
