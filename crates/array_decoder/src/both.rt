// Two calls on arrays, which answer alike where the arrays differ by an array of codewords.
ghost use Rattle.array_decoder.specs.Alike.{AlikeArrays, DifferArrays, FitArray};

use crate::{ArrayRefused, decode_array};
use refusals::Both;

// Decodes two arrays under the same codes and limits.
pub fn decode_array_both(
    mr: usize,
    rr: usize,
    mc: usize,
    rc: usize,
    rounds: usize,
    leaves: usize,
    word1: &[u8],
    word2: &[u8],
    out1: &mut [u8],
    out2: &mut [u8],
    area1: &mut [i32],
    area2: &mut [i32],
) -> Both<Result<usize, ArrayRefused>>
    ensures { DifferArrays mr rr mc rc word1.now word2.now → FitArray mr mc out1.old area1.old → FitArray mr mc out2.old area2.old → AlikeArrays word1.now word2.now out1.new out2.new result.first result.second }
{
    let first = decode_array(mr, rr, mc, rc, rounds, leaves, word1, out1, area1);
    let second = decode_array(mr, rr, mc, rc, rounds, leaves, word2, out2, area2);
    Both { first, second }
}
