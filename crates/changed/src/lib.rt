// A block and the same block changed, decoded at order 1: fewer changed places than a quarter of the gap leave the codeword. Document 02,
// request 13.
#![tactic(auto)]

ghost use Rattle.std.specs.Prelude.{◌≡◌};
ghost use Rattle.refusals.specs.Refusals.{first_refusal};
ghost use Rattle.profiles.specs.Profiles.{profile_of};
ghost use Rattle.rule.specs.Decoding.{limit_checks};
ghost use Rattle.alike.specs.Alike.{Fit};
ghost use Rattle.changed.specs.Changed.{Near, Same};

use refusals::{Accepted, Refusal, Refused};

// What the calls answer: the gap of the first block, and both decodings.
#[derive(Clone, Copy)]
pub struct Three {
    pub gap: Result<usize, Refusal>,
    pub first: Result<Accepted, Refused>,
    pub second: Result<Accepted, Refused>,
}

// Under limits that are not refused.
pub fn decode_changed(
    m: usize,
    rounds: usize,
    leaves: usize,
    word1: &[u8],
    word2: &[u8],
    out1: &mut [u8],
    out2: &mut [u8],
    area: &mut [i32],
    area1: &mut [i32],
    area2: &mut [i32],
) -> Three
    ensures { Near m word1.now word2.now result.gap → first_refusal (limit_checks rounds leaves) ≡ 0 → Fit m out1.old area1.old → Fit m out2.old area2.old → Same m out1.new out2.new result.first result.second }
{
    let gap = gap::gap(m, word1, area);
    let first = decoder::decode(m, 1, rounds, leaves, word1, out1, area1);
    let second = decoder::decode(m, 1, rounds, leaves, word2, out2, area2);
    Three { gap, first, second }
}

// The exponent of a profile, 0 where there is none.
fn exponent(profile: usize) -> usize
    ensures { result ≡ (profile_of profile).m }
{
    if 4 < profile {
        return 0;
    }
    let p = profiles::by_number(profile);
    p.m
}

// Under a profile of order 1. Beside `decode_changed`, as `decode_profile` stands beside `decode`: its limits are never refused.
pub fn decode_profile_changed(
    profile: usize,
    word1: &[u8],
    word2: &[u8],
    out1: &mut [u8],
    out2: &mut [u8],
    area: &mut [i32],
    area1: &mut [i32],
    area2: &mut [i32],
) -> Three
    ensures { Near (profile_of profile).m word1.now word2.now result.gap → (profile_of profile).r ≡ 1 → Fit (profile_of profile).m out1.old area1.old → Fit (profile_of profile).m out2.old area2.old → Same (profile_of profile).m out1.new out2.new result.first result.second }
{
    let m = exponent(profile);
    let gap = gap::gap(m, word1, area);
    let first = decoder::decode_profile(profile, word1, out1, area1);
    let second = decoder::decode_profile(profile, word2, out2, area2);
    Three { gap, first, second }
}
