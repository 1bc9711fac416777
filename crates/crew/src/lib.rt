// The crew's lines. The functions are handed the decoder's answer, and neither word nor message.
#![tactic(auto)]

ghost use Rattle.std.specs.Prelude.{◌+◌, ◌≤◌, ◌++◌, length};
ghost use Rattle.rule.specs.Calls.{values_of};
ghost use Rattle.rule.specs.Decoding.{values};
ghost use Rattle.text.specs.Numbers.{ten_digits};
ghost use Rattle.text.specs.Texts.{Appended, Added};
ghost use Rattle.crew.specs.Crew.{crew_refusal, numbers_text, serial_text, spaced};

use refusals::{Accepted, Refused};
use text::Writer;

// A space, and a number in decimal.
fn put_spaced(w: &mut Writer, n: usize)
    requires { w.old.at + 21 ≤ length w.old.out.now }
    ensures text { Added (spaced n) w.old w.new }
    ensures ends { w.new.at ≤ w.old.at + 21 }
{
    w.put_byte(32);
    w.put_decimal(n as u64);
}

// The five numbers after the serial, and the end of the line.
fn put_numbers(
    w: &mut Writer,
    profile: usize,
    rounds: usize,
    leaves: usize,
    mended: usize,
    refusal: u8,
)
    requires { w.old.at + 106 ≤ length w.old.out.now }
    ensures { Added (numbers_text profile (values refusal rounds leaves mended)) w.old w.new }
{
    put_spaced(w, profile);
    put_spaced(w, rounds);
    put_spaced(w, leaves);
    put_spaced(w, mended);
    put_spaced(w, usize::from(refusal));
    w.put_byte(10);
}

// The serial, and what the decoder answered.
fn put_record(w: &mut Writer, serial: u32, number: usize, answer: Result<Accepted, Refused>)
    requires { w.old.at + 116 ≤ length w.old.out.now }
    ensures { Added (ten_digits serial ++ numbers_text number (values_of answer)) w.old w.new }
{
    w.put_ten(serial);
    match answer {
        Ok(read) => put_numbers(w, number, read.rounds, read.leaves, read.mended, 0),
        Err(refused) => {
            let refusal = refusals::number(refused.why);
            put_numbers(w, number, refused.rounds, refused.leaves, 0, refusal);
        }
    }
}

// The line of a record, by its profile's number and the decoder's answer.
pub fn record_line(
    serial: u32,
    number: usize,
    answer: Result<Accepted, Refused>,
    out: &mut [u8],
    at: usize,
) -> usize
    requires { at + 116 ≤ length out.old }
    ensures { Appended out.old at (ten_digits serial ++ numbers_text number (values_of answer)) result out.new }
{
    let mut w = Writer { out, at };
    put_record(&mut w, serial, number, answer);
    w.at
}

// The serial of a refusal of the capture reader: 16 has ten hyphens in its place.
fn put_serial(w: &mut Writer, refusal: u8, serial: u32)
    requires { w.old.at + 10 ≤ length w.old.out.now }
    ensures { Added (serial_text refusal serial) w.old w.new }
{
    if refusal == 16 {
        w.put_text(b"----------");
    } else {
        w.put_ten(serial);
    }
}

// The serial, and the refusal with no other number.
fn put_refused(w: &mut Writer, refusal: u8, serial: u32)
    requires { w.old.at + 116 ≤ length w.old.out.now }
    ensures { Added (crew_refusal refusal serial) w.old w.new }
{
    put_serial(w, refusal, serial);
    put_numbers(w, 0, 0, 0, 0, refusal);
}

// The line of a refusal of the capture reader, by its number, for any number.
pub fn refusal_line(refusal: u8, serial: u32, out: &mut [u8], at: usize) -> usize
    requires { at + 116 ≤ length out.old }
    ensures { Appended out.old at (crew_refusal refusal serial) result out.new }
{
    let mut w = Writer { out, at };
    put_refused(&mut w, refusal, serial);
    w.at
}
