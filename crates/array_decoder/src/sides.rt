// The checks of a call on an array, in document 02's order.
ghost use Rattle.std.specs.Prelude.{[], ◌++◌, ◌≤◌};
ghost use Rattle.refusals.specs.Refusals.{Checked};
ghost use Rattle.arrays.specs.Arrays.{array_buffers, array_limits, side_checks};

use crate::Codes;
use refusals::Refusal;

// 1, 27 and 2, of the code of one side.
fn check_side(m: usize, r: usize) -> Result<(), Refusal>
    ensures { Checked (side_checks m r) [] result }
{
    if 6 < m {
        if m < 11 {
            return Err(Refusal::ArrayExponent);
        }
    }
    code_checks::check_code(m, r)
}

// Those of both codes, then 3 and 4.
fn check_limits(codes: Codes) -> Result<(), Refusal>
    ensures { Checked (array_limits codes.mr codes.rr codes.mc codes.rc codes.rounds codes.leaves) [] result }
{
    check_side(codes.mr, codes.rr)?;
    check_side(codes.mc, codes.rc)?;
    checks::limits(codes.rounds, codes.leaves)
}

// 5 to 8.
fn check_buffers(mr: usize, mc: usize, word: &[u8], room: usize, area: usize) -> Result<(), Refusal>
    requires { (mr ≤ 6) × (mc ≤ 6) }
    ensures { Checked (array_buffers mr mc word.now room area) word.now result }
{
    let rows = words::size(mc);
    let n = rows * words::size(mr);
    let least = 8 * words::size(mr.max(mc));
    checks::sizes(n, least, word.len(), room, area)?;
    code_checks::check_bytes(word)
}

// All of them.
pub(crate) fn check_array(
    codes: Codes,
    word: &[u8],
    room: usize,
    area: usize,
) -> Result<(), Refusal>
    ensures { Checked (array_limits codes.mr codes.rr codes.mc codes.rc codes.rounds codes.leaves ++ array_buffers codes.mr codes.mc word.now room area) word.now result }
{
    check_limits(codes)?;
    check_buffers(codes.mr, codes.mc, word, room, area)
}
