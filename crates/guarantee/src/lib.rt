// A call of the decoder, and what it surely mends: document 02, request 6.
#![tactic(auto)]

ghost use Rattle.std.specs.Prelude.{ℕ, ◌≤◌, List};
ghost use Rattle.alike.specs.Alike.{Fit};
ghost use Rattle.profiles.specs.Profiles.{profile_of};
ghost use Rattle.guarantee.specs.Guarantee.{Limits, Received, Mended};

use refusals::{Accepted, Refused};

// Decodes a block under limits that permit the guarantee: whatever codeword was sent, fewer than half the distance of places away, is given.
pub fn decode_sent(
    m: usize,
    r: usize,
    rounds: usize,
    leaves: usize,
    word: &[u8],
    out: &mut [u8],
    area: &mut [i32],
) -> Result<Accepted, Refused>
    ensures { (c : List ℕ) → Limits m r rounds leaves → Received m r word.now c → Fit m out.old area.old → Mended m r word.now c out.new result }
{
    decoder::decode(m, r, rounds, leaves, word, out, area)
}

// The same under the limits of a profile, which all permit it.
pub fn decode_profile_sent(
    profile: usize,
    word: &[u8],
    out: &mut [u8],
    area: &mut [i32],
) -> Result<Accepted, Refused>
    ensures { (c : List ℕ) → profile ≤ 4 → Received (profile_of profile).m (profile_of profile).r word.now c → Fit (profile_of profile).m out.old area.old → Mended (profile_of profile).m (profile_of profile).r word.now c out.new result }
{
    decoder::decode_profile(profile, word, out, area)
}
