// The calls of the core for C and Rust, each answer packed in 64 bits.
#![tactic(auto)]

ghost use Rattle.std.specs.Prelude.{◌≡◌, length};
ghost use Rattle.code.specs.Code.{codeword, codeword_test, message_of};
ghost use Rattle.codec_checks.specs.Checks.{encode_checks, read_checks, test_checks};
ghost use Rattle.profiles.specs.Profiles.{profile_of};
ghost use Rattle.rule.specs.Decoding.{decode_call, decode_profile_call};
ghost use Rattle.packing.specs.Packing.{Returns, ReturnsDecoded, ReturnsGap, pack_test};

mod array_calls;
mod by_table;
mod load_calls;
mod street_calls;
mod tally_calls;
mod value_calls;

#[unsafe(no_mangle)]
pub extern "C" fn rm_encode(m: usize, r: usize, message: &[u8], out: &mut [u8]) -> u64
    ensures { Returns (encode_checks m r message.now (length out.old)) (codeword m r message.now) message.now out.old out.new result }
{
    let answer = codec::encode(m, r, message, out);
    packing::pack_answer(answer)
}

#[unsafe(no_mangle)]
pub extern "C" fn rm_read_message(m: usize, r: usize, word: &[u8], out: &mut [u8]) -> u64
    ensures { Returns (read_checks m r word.now (length out.old)) (message_of m r word.now) word.now out.old out.new result }
{
    let answer = codec::read_message(m, r, word, out);
    packing::pack_answer(answer)
}

// 1 in the rounds where the word is a codeword.
#[unsafe(no_mangle)]
pub extern "C" fn rm_is_codeword(m: usize, r: usize, word: &[u8]) -> u64
    ensures { result ≡ pack_test (test_checks m r word.now) word.now (codeword_test m r word.now) }
{
    let answer = codec::is_codeword(m, r, word);
    packing::pack_tested(answer)
}

#[unsafe(no_mangle)]
pub extern "C" fn rm_decode(
    m: usize,
    r: usize,
    rounds: usize,
    leaves: usize,
    word: &[u8],
    out: &mut [u8],
    area: &mut [i32],
) -> u64
    ensures { ReturnsDecoded m (decode_call m r rounds leaves word.now (length out.old) (length area.old)) word.now out.old out.new area.old area.new result }
{
    let answer = decoder::decode(m, r, rounds, leaves, word, out, area);
    packing::pack_decoded(answer)
}

#[unsafe(no_mangle)]
pub extern "C" fn rm_decode_profile(
    profile: usize,
    word: &[u8],
    out: &mut [u8],
    area: &mut [i32],
) -> u64
    ensures { ReturnsDecoded (profile_of profile).m (decode_profile_call profile word.now (length out.old) (length area.old)) word.now out.old out.new area.old area.new result }
{
    let answer = decoder::decode_profile(profile, word, out, area);
    packing::pack_decoded(answer)
}

// The gap stands in the place of the leaf count.
#[unsafe(no_mangle)]
pub extern "C" fn rm_gap(m: usize, word: &[u8], area: &mut [i32]) -> u64
    ensures { ReturnsGap m word.now area.old area.new result }
{
    let answer = gap::gap(m, word, area);
    packing::pack_measured(answer)
}
