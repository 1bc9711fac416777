// Two calls of the decoder, which answer alike on words that differ by a codeword: document 01, demand 3, and document 02, request 4.
#![tactic(auto)]

ghost use Rattle.profiles.specs.Profiles.{profile_of};
ghost use Rattle.tables.specs.Tables.{entry_of};
ghost use Rattle.alike.specs.Alike.{Differ, Fit, Alike};

use refusals::{Accepted, Both, Refused};
use tables::Profiles;

// Decodes two blocks under the same limits.
pub fn decode_both(
    m: usize,
    r: usize,
    rounds: usize,
    leaves: usize,
    word1: &[u8],
    word2: &[u8],
    out1: &mut [u8],
    out2: &mut [u8],
    area1: &mut [i32],
    area2: &mut [i32],
) -> Both<Result<Accepted, Refused>>
    ensures { Differ m r word1.now word2.now → Fit m out1.old area1.old → Fit m out2.old area2.old → Alike word1.now word2.now out1.new out2.new result.first result.second }
{
    let first = decoder::decode(m, r, rounds, leaves, word1, out1, area1);
    let second = decoder::decode(m, r, rounds, leaves, word2, out2, area2);
    Both { first, second }
}

// Decodes two blocks under the limits of the same profile: of `decode_profile`, whose promise is document 01's own definition.
pub fn decode_profile_both(
    profile: usize,
    word1: &[u8],
    word2: &[u8],
    out1: &mut [u8],
    out2: &mut [u8],
    area1: &mut [i32],
    area2: &mut [i32],
) -> Both<Result<Accepted, Refused>>
    ensures { Differ (profile_of profile).m (profile_of profile).r word1.now word2.now → Fit (profile_of profile).m out1.old area1.old → Fit (profile_of profile).m out2.old area2.old → Alike word1.now word2.now out1.new out2.new result.first result.second }
{
    let first = decoder::decode_profile(profile, word1, out1, area1);
    let second = decoder::decode_profile(profile, word2, out2, area2);
    Both { first, second }
}

// Decodes two blocks under the same entry of a table, or of document 01's.
pub fn decode_table_both<P: Profiles>(
    profiles: &P,
    number: usize,
    word1: &[u8],
    word2: &[u8],
    out1: &mut [u8],
    out2: &mut [u8],
    area1: &mut [i32],
    area2: &mut [i32],
) -> Both<Result<Accepted, Refused>>
    ensures { Differ (entry_of (P.table profiles.now) number).m (entry_of (P.table profiles.now) number).r word1.now word2.now → Fit (entry_of (P.table profiles.now) number).m out1.old area1.old → Fit (entry_of (P.table profiles.now) number).m out2.old area2.old → Alike word1.now word2.now out1.new out2.new result.first result.second }
{
    let first = table_decoder::decode_table(profiles, number, word1, out1, area1);
    let second = table_decoder::decode_table(profiles, number, word2, out2, area2);
    Both { first, second }
}
