// The decoder: readings by projection and vote, in a lent area of numbers.
#![tactic(auto)]

ghost use Rattle.std.specs.Prelude.{length};
ghost use Rattle.profiles.specs.Profiles.{profile_of};
ghost use Rattle.rule.specs.Decoding.{decode_call, decode_profile_call};
ghost use Rattle.rule.specs.Calls.{Decodes};

use refusals::{Accepted, Refusal, Refused};
use runs::run;

mod answers;
pub mod runs;

// Decodes a block under the limits given.
pub fn decode(
    m: usize,
    r: usize,
    rounds: usize,
    leaves: usize,
    word: &[u8],
    out: &mut [u8],
    area: &mut [i32],
) -> Result<Accepted, Refused>
    ensures { Decodes m (decode_call m r rounds leaves word.now (length out.old) (length area.old)) word.now out.old out.new area.old area.new result }
{
    checks::call(m, r, rounds, leaves, word, out.len(), area.len())?;
    run(m, r, rounds, leaves, word, out, area)
}

// Decodes a block under the limits of a profile. Beside `decode_table`, since document 01's rows pass checks 1 to 4: only 5 to 8 are made.
pub fn decode_profile(
    profile: usize,
    word: &[u8],
    out: &mut [u8],
    area: &mut [i32],
) -> Result<Accepted, Refused>
    ensures { Decodes (profile_of profile).m (decode_profile_call profile word.now (length out.old) (length area.old)) word.now out.old out.new area.old area.new result }
{
    if 4 < profile {
        return Err(Refused::from(Refusal::Profile));
    }
    let p = profiles::by_number(profile);
    checks::buffers(p.m, word, out.len(), area.len())?;
    run(p.m, p.r, p.rounds, p.leaves, word, out, area)
}
