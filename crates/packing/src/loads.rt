// What a call for a block of a load answers, packed.
ghost use Rattle.std.specs.Prelude.{◌≡◌};
ghost use Rattle.refusals.specs.Refusals.{answer_number};
ghost use Rattle.packing.specs.Loads.{pack_next};

use load::Next;
use refusals::Refusal;

// Lowest first: refusal or 0 in 8, 1 where the block was left short in 8, nothing in 16, the state after in 32.
fn pack(number: u8, short: bool, state: u32) -> u64
    ensures { result ≡ pack_next number short state }
{
    number as u64 + short as u64 * 256 + state as u64 * 4294967296
}

pub fn pack_next(next: Next) -> u64
    ensures { result ≡ pack_next (answer_number next.answer) next.short next.state }
{
    let answer = next.answer;
    match answer {
        Ok(()) => pack(0, next.short, next.state),
        Err(why) => pack(refusals::number(why), next.short, next.state),
    }
}
