// The checks of a call, in document 01's order.
#![tactic(auto)]

ghost use Rattle.std.specs.Prelude.{[], ◌++◌, ◌≤◌};
ghost use Rattle.refusals.specs.Refusals.{Checked, code_checks};
ghost use Rattle.rule.specs.Decoding.{limit_checks, size_checks, buffer_checks};

use refusals::Refusal;

// 3 and 4: the limits.
pub fn limits(rounds: usize, leaves: usize) -> Result<(), Refusal>
    ensures { Checked (limit_checks rounds leaves) [] result }
{
    if rounds < 1 {
        return Err(Refusal::RoundLimit);
    }
    if 16 < rounds {
        return Err(Refusal::RoundLimit);
    }
    if leaves < 1 {
        return Err(Refusal::LeafLimit);
    }
    if 1000000 < leaves {
        return Err(Refusal::LeafLimit);
    }
    Ok(())
}

// 5 to 7: input and output of n places, and at least so many numbers.
pub fn sizes(n: usize, least: usize, size: usize, room: usize, area: usize) -> Result<(), Refusal>
    ensures { Checked (size_checks n least size room area) [] result }
{
    if size != n {
        return Err(Refusal::InputLength);
    }
    if room != n {
        return Err(Refusal::OutputLength);
    }
    if area < least {
        return Err(Refusal::AreaLength);
    }
    Ok(())
}

// 5 to 8: the buffers of a call at exponent m.
pub fn buffers(m: usize, word: &[u8], room: usize, area: usize) -> Result<(), Refusal>
    requires { m ≤ 10 }
    ensures { Checked (buffer_checks m word.now room area) word.now result }
{
    let n = words::size(m);
    sizes(n, 8 * n, word.len(), room, area)?;
    code_checks::check_bytes(word)
}

// 1 to 8.
pub fn call(
    m: usize,
    r: usize,
    rounds: usize,
    leaves: usize,
    word: &[u8],
    room: usize,
    area: usize,
) -> Result<(), Refusal>
    ensures { Checked (code_checks m r ++ limit_checks rounds leaves ++ buffer_checks m word.now room area) word.now result }
{
    code_checks::check_code(m, r)?;
    limits(rounds, leaves)?;
    buffers(m, word, room, area)
}
