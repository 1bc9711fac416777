// What the capture reader and a load answer, packed.
ghost use Rattle.std.specs.Prelude.{◌≡◌};
ghost use Rattle.refusals.specs.Refusals.{answer_number};
ghost use Rattle.capture.specs.Capture.{answer_of};
ghost use Rattle.packing.specs.ByTable.{pack_found};

use capture::{NoRecord, Record};
use refusals::Refusal;

// A refusal's number alone, 0 where there is none.
pub fn pack_number(answer: Result<(), Refusal>) -> u64
    ensures { result ≡ answer_number answer }
{
    match answer {
        Ok(()) => 0,
        Err(why) => refusals::number(why) as u64,
    }
}

// Lowest first: refusal or 0 in 8, 1 where no record is left in 8, the profile in 8, nothing in 8, the serial in 32.
pub fn pack_found(found: Result<Option<Record>, NoRecord>) -> u64
    ensures { result ≡ pack_found (answer_of found) }
{
    match found {
        Ok(found) => match found {
            None => 256,
            Some(record) => (record.profile % 256) as u64 * 65536
                + u64::from(record.serial) * 4294967296,
        },
        Err(missing) => refusals::number(missing.why) as u64
            + u64::from(missing.serial) * 4294967296,
    }
}
