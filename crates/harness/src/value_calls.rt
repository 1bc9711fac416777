// The calls for confidences, document 02's request 2, for C and Rust.
ghost use Rattle.std.specs.Prelude.{length};
ghost use Rattle.profiles.specs.Profiles.{profile_of};
ghost use Rattle.confidences.specs.Answers.{confidence_call, confidence_profile_call};
ghost use Rattle.packing.specs.Confidences.{ReturnsValues};

use confidence_decoder::{decode_confidences, decode_confidences_table};
use tables::Standard;

#[unsafe(no_mangle)]
pub extern "C" fn rm_decode_confidences(
    m: usize,
    r: usize,
    rounds: usize,
    leaves: usize,
    values: &[i16],
    out: &mut [u8],
    area: &mut [i32],
) -> u64
    ensures { ReturnsValues m r rounds (confidence_call m r rounds leaves values.now (length out.old) (length area.old)) values.now out.old out.new area.old area.new result }
{
    let answer = decode_confidences(m, r, rounds, leaves, values, out, area);
    packing::pack_decoded(answer)
}

#[unsafe(no_mangle)]
pub extern "C" fn rm_decode_confidences_profile(
    profile: usize,
    values: &[i16],
    out: &mut [u8],
    area: &mut [i32],
) -> u64
    ensures { ReturnsValues (profile_of profile).m (profile_of profile).r (profile_of profile).rounds (confidence_profile_call profile values.now (length out.old) (length area.old)) values.now out.old out.new area.old area.new result }
{
    let answer = decode_confidences_table(&Standard, profile, values, out, area);
    packing::pack_decoded(answer)
}
