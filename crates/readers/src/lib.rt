// The lines of a listing for each of its readers. Nothing else of the listing asks who reads it.
#![tactic(auto)]

ghost use Rattle.std.specs.Prelude.{◌+◌, ◌≤◌, length};
ghost use Rattle.refusals.specs.Refusals.{number_of};
ghost use Rattle.text.specs.Texts.{Appended};
ghost use Rattle.lines.specs.Lines.{decoded_by};
ghost use Rattle.billing.specs.Accepted.{Answered};
ghost use Rattle.readers.specs.Readers.{lines_for};

use profiles::Profile;
use refusals::{Accepted, Refusal, Refused};

// By value: callers choose it as they run, and this crate alone asks which it is.
#[derive(Clone, Copy, Debug, PartialEq, Eq)]
pub enum Reader {
    Billing,
    Crew,
}

// The reader's line of a record, by the decoder's answer to its word and what it put out. The word's buffer serves for the message.
pub fn record_line(
    reader: Reader,
    serial: u32,
    number: usize,
    p: Profile,
    answer: Result<Accepted, Refused>,
    decoded: &[u8],
    word: &mut [u8],
    out: &mut [u8],
    at: usize,
) -> usize
    requires { Answered p word.old decoded.now answer × (at + 268 ≤ length out.old) }
    ensures { Appended out.old at ((lines_for reader).of_record serial number p word.old (decoded_by p word.old)) result out.new }
{
    match reader {
        Reader::Billing => billing::record_line(serial, p, answer, decoded, word, out, at),
        Reader::Crew => crew::record_line(serial, number, answer, out, at),
    }
}

// The reader's line of a refusal of the capture reader.
pub fn refusal_line(reader: Reader, why: Refusal, serial: u32, out: &mut [u8], at: usize) -> usize
    requires { at + 268 ≤ length out.old }
    ensures { Appended out.old at ((lines_for reader).of_refusal (number_of why) serial) result out.new }
{
    let number = refusals::number(why);
    match reader {
        Reader::Billing => lines::refusal_line(number, serial, out, at),
        Reader::Crew => crew::refusal_line(number, serial, out, at),
    }
}
