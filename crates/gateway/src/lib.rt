// The layer for the gateway whose receive loop is C: the core's calls on numbers and byte slices, with working numbers of its own, each answer
// packed in 64 bits.
#![tactic(auto)]

ghost use Rattle.std.specs.Prelude.{◌*◌, ◌^◌, ◌≤◌, length};
ghost use Rattle.profiles.specs.Profiles.{profile_of};
ghost use Rattle.code.specs.Code.{codeword, message_of};
ghost use Rattle.codec_checks.specs.Checks.{encode_checks, read_checks};
ghost use Rattle.packing.specs.Packing.{Returns};
ghost use Rattle.gateway.specs.Gateway.{Delivers, ReturnsOwn};

use refusals::{Accepted, Refused};

// A block in N working numbers, at least 8 for each of its places.
fn decode_in<const N: usize>(
    profile: usize,
    word: &[u8],
    out: &mut [u8],
) -> Result<Accepted, Refused>
    requires few { N ≤ 2048 }
    requires enough { profile ≤ 4 → 8 * 2 ^ (profile_of profile).m ≤ N }
    ensures { Delivers profile word.now out.old out.new result }
{
    let mut area = [0i32; N];
    decoder::decode_profile(profile, word, out, &mut area)
}

// The short blocks of profiles 0 and 1 have fewer numbers, since clearing as many as the longest need takes as long as reading a block of
// profile 0.
fn decode(profile: usize, word: &[u8], out: &mut [u8]) -> Result<Accepted, Refused>
    ensures { Delivers profile word.now out.old out.new result }
{
    match profile {
        0 => decode_in::<256>(0, word, out),
        1 => decode_in::<512>(1, word, out),
        _ => decode_in::<2048>(profile, word, out),
    }
}

#[unsafe(no_mangle)]
pub extern "C" fn gateway_encode(m: usize, r: usize, message: &[u8], out: &mut [u8]) -> u64
    ensures { Returns (encode_checks m r message.now (length out.old)) (codeword m r message.now) message.now out.old out.new result }
{
    let answer = codec::encode(m, r, message, out);
    packing::pack_answer(answer)
}

#[unsafe(no_mangle)]
pub extern "C" fn gateway_decode(profile: usize, word: &[u8], out: &mut [u8]) -> u64
    ensures { ReturnsOwn profile word.now out.old out.new result }
{
    let answer = decode(profile, word, out);
    packing::pack_decoded(answer)
}

#[unsafe(no_mangle)]
pub extern "C" fn gateway_read_message(m: usize, r: usize, word: &[u8], out: &mut [u8]) -> u64
    ensures { Returns (read_checks m r word.now (length out.old)) (message_of m r word.now) word.now out.old out.new result }
{
    let answer = codec::read_message(m, r, word, out);
    packing::pack_answer(answer)
}
