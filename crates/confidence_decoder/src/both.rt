// Two calls for confidences, which answer alike where the values differ by a codeword: negated where it is 1.
ghost use Rattle.std.specs.Prelude.{ℕ, List, length};
ghost use Rattle.tables.specs.Tables.{entry_of};
ghost use Rattle.confidences.specs.Alike.{AlikeValues, DifferValues, RightRoom};

use crate::{decode_confidences, decode_confidences_table};
use refusals::{Accepted, Both, Refused};
use tables::Profiles;

// Decodes two blocks of confidences under the same limits.
pub fn decode_confidences_both(
    m: usize,
    r: usize,
    rounds: usize,
    leaves: usize,
    values1: &[i16],
    values2: &[i16],
    out1: &mut [u8],
    out2: &mut [u8],
    area1: &mut [i32],
    area2: &mut [i32],
) -> Both<Result<Accepted, Refused>>
    ensures { (c : List ℕ) → DifferValues m r values1.now values2.now c → RightRoom m (length out1.old) (length area1.old) → RightRoom m (length out2.old) (length area2.old) → AlikeValues m values1.now c out1.new out2.new result.first result.second }
{
    let first = decode_confidences(m, r, rounds, leaves, values1, out1, area1);
    let second = decode_confidences(m, r, rounds, leaves, values2, out2, area2);
    Both { first, second }
}

// Decodes two blocks of confidences under the same entry of a table, or of document 01's.
pub fn decode_confidences_table_both<P: Profiles>(
    profiles: &P,
    number: usize,
    values1: &[i16],
    values2: &[i16],
    out1: &mut [u8],
    out2: &mut [u8],
    area1: &mut [i32],
    area2: &mut [i32],
) -> Both<Result<Accepted, Refused>>
    ensures { (c : List ℕ) → DifferValues (entry_of (P.table profiles.now) number).m (entry_of (P.table profiles.now) number).r values1.now values2.now c → RightRoom (entry_of (P.table profiles.now) number).m (length out1.old) (length area1.old) → RightRoom (entry_of (P.table profiles.now) number).m (length out2.old) (length area2.old) → AlikeValues (entry_of (P.table profiles.now) number).m values1.now c out1.new out2.new result.first result.second }
{
    let first = decode_confidences_table(profiles, number, values1, out1, area1);
    let second = decode_confidences_table(profiles, number, values2, out2, area2);
    Both { first, second }
}
