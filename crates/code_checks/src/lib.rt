// The checks of a code and of bytes, which come before any work.
#![tactic(auto)]

ghost use Rattle.std.specs.Prelude.{[]};
ghost use Rattle.refusals.specs.Refusals.{Checked, code_checks, byte_checks};

use refusals::Refusal;

// 1 and 2: the exponent and the order.
pub fn check_code(m: usize, r: usize) -> Result<(), Refusal>
    ensures { Checked (code_checks m r) [] result }
{
    if m < 1 {
        return Err(Refusal::Exponent);
    }
    if 10 < m {
        return Err(Refusal::Exponent);
    }
    if m < r {
        return Err(Refusal::Order);
    }
    Ok(())
}

// 8: a byte above 1.
pub fn check_bytes(s: &[u8]) -> Result<(), Refusal>
    ensures { Checked (byte_checks s.now) s.now result }
{
    let place = words::bad_place(s);
    if place < s.len() {
        return Err(Refusal::BadByte(place));
    }
    Ok(())
}
