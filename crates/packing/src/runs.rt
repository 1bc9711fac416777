// What a run of a street answers, packed.
ghost use Rattle.std.specs.Prelude.{◌≡◌};
ghost use Rattle.refusals.specs.Refusals.{answer_number};
ghost use Rattle.packing.specs.Streets.{pack_ran};

use refusals::Refusal;
use street_runs::Ran;

// Lowest first: refusal or 0 in 8, the blocks sent in 32, 1 where a step answered that none is left in 8.
fn pack(number: u8, sent: usize, none: bool) -> u64
    ensures { result ≡ pack_ran number sent none }
{
    number as u64 + (sent % 4294967296) as u64 * 256 + none as u64 * 1099511627776
}

pub fn pack_ran(ran: Ran) -> u64
    ensures { result ≡ pack_ran (answer_number ran.answer) ran.sent ran.none_left }
{
    let answer = ran.answer;
    match answer {
        Ok(()) => pack(0, ran.sent, ran.none_left),
        Err(why) => pack(refusals::number(why), ran.sent, ran.none_left),
    }
}
