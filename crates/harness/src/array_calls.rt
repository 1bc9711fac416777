// The call on arrays, document 02's request 12, for C and Rust.
ghost use Rattle.std.specs.Prelude.{length};
ghost use Rattle.arrays.specs.Arrays.{array_call};
ghost use Rattle.packing.specs.Arrays.{ReturnsArray};

// Exponent and order of the row code, then of the column code; the array's places row after row.
#[unsafe(no_mangle)]
pub extern "C" fn rm_decode_array(
    mr: usize,
    rr: usize,
    mc: usize,
    rc: usize,
    rounds: usize,
    leaves: usize,
    word: &[u8],
    out: &mut [u8],
    area: &mut [i32],
) -> u64
    ensures { ReturnsArray (array_call mr rr mc rc rounds leaves word.now (length out.old) (length area.old)) word.now out.old out.new area.old area.new result }
{
    let answer = array_decoder::decode_array(mr, rr, mc, rc, rounds, leaves, word, out, area);
    packing::array_answers::pack_array(answer)
}
