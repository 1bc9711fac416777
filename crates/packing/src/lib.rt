// Answers packed in 64 bits, lowest first: refusal or 0 in 8, rounds in 8, leaf count in 24, mended places in 12, the place named in 12.
#![tactic(auto)]

ghost use Rattle.std.specs.Prelude.{◌≡◌};
ghost use Rattle.refusals.specs.Refusals.{answer_number, answer_place};
ghost use Rattle.codec.specs.Calls.{tested_number, tested_place};
ghost use Rattle.rule.specs.Calls.{values_of, decoded_place};
ghost use Rattle.gap.specs.Calls.{measured_values};
ghost use Rattle.packing.specs.Packing;
ghost use Rattle.packing.specs.Packing.{yes_of, pack_gap, pack_values};

use refusals::{Accepted, Refusal, Refused};

pub mod array_answers;
pub mod by_table;
pub mod loads;
pub mod runs;

fn pack(number: u8, rounds: usize, leaves: usize, mended: usize, place: usize) -> u64
    ensures { result ≡ Rattle.packing.specs.Packing.pack number rounds leaves mended place }
{
    let low = number as u64 + (rounds % 256) as u64 * 256;
    let middle = (leaves % 16777216) as u64 * 65536 + (mended % 4096) as u64 * 1099511627776;
    let high = (place % 4096) as u64 * 4503599627370496;
    low + middle + high
}

pub fn pack_answer(answer: Result<(), Refusal>) -> u64
    ensures { result ≡ Rattle.packing.specs.Packing.pack (answer_number answer) 0 0 0 (answer_place answer) }
{
    match answer {
        Ok(()) => 0,
        Err(why) => pack(refusals::number(why), 0, 0, 0, refusals::place(why)),
    }
}

pub fn pack_tested(answer: Result<bool, Refusal>) -> u64
    ensures { result ≡ Rattle.packing.specs.Packing.pack (tested_number answer) (yes_of answer) 0 0 (tested_place answer) }
{
    match answer {
        Ok(yes) => pack(0, usize::from(yes), 0, 0, 0),
        Err(why) => pack(refusals::number(why), 0, 0, 0, refusals::place(why)),
    }
}

pub fn pack_decoded(answer: Result<Accepted, Refused>) -> u64
    ensures { result ≡ pack_values (values_of answer) (decoded_place answer) }
{
    match answer {
        Ok(read) => pack(0, read.rounds, read.leaves, read.mended, 0),
        Err(refused) => pack(
            refusals::number(refused.why),
            refused.rounds,
            refused.leaves,
            0,
            refusals::place(refused.why),
        ),
    }
}

pub fn pack_measured(answer: Result<usize, Refusal>) -> u64
    ensures { result ≡ pack_gap (measured_values answer) }
{
    match answer {
        Ok(gap) => pack(0, 0, gap, 0, 0),
        Err(why) => pack(refusals::number(why), 0, 0, 0, refusals::place(why)),
    }
}
