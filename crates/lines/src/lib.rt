// The lines of the meter listing, put after what a buffer holds already.
#![tactic(auto)]

ghost use Rattle.std.specs.Prelude.{◌≡◌, ◌+◌, ◌≤◌, length};
ghost use Rattle.text.specs.Texts.{Appended, Added};
ghost use Rattle.lines.specs.Lines.{accepted_by, billing, cut_line, refusal_text, refused_line};

use refusals::{Accepted, Refused};
use text::Writer;

// " refused " and the number.
pub fn put_refusal(w: &mut Writer, number: u8)
    requires { w.old.at + length (refusal_text number) ≤ length w.old.out.now }
    ensures { Added (refusal_text number) w.old w.new }
{
    w.put_text(b" refused ");
    w.put_decimal(u64::from(number));
}

// The line of a refused record.
pub fn refused_line(w: &mut Writer, serial: u32, number: u8)
    requires { w.old.at + length (refused_line serial number) ≤ length w.old.out.now }
    ensures { Added (refused_line serial number) w.old w.new }
{
    w.put_ten(serial);
    put_refusal(w, number);
    w.put_byte(10);
}

// The line of a record that the capture's end cuts off.
pub fn cut_line(w: &mut Writer)
    requires { w.old.at + length cut_line ≤ length w.old.out.now }
    ensures { Added cut_line w.old w.new }
{
    w.put_text(b"----------");
    put_refusal(w, 16);
    w.put_byte(10);
}

// By its number, for any number: 16 has ten hyphens for the serial.
fn put_refused(w: &mut Writer, serial: u32, number: u8)
    requires { w.old.at + 23 ≤ length w.old.out.now }
    ensures { Added (billing.of_refusal number serial) w.old w.new }
{
    if number == 16 {
        cut_line(w);
    } else {
        refused_line(w, serial, number);
    }
}

// Billing's line of a refusal of the capture reader.
pub fn refusal_line(number: u8, serial: u32, out: &mut [u8], at: usize) -> usize
    requires { at + 23 ≤ length out.old }
    ensures { Appended out.old at (billing.of_refusal number serial) result out.new }
{
    let mut w = Writer { out, at };
    put_refused(&mut w, serial, number);
    w.at
}

// 1 where the decoder accepted, else 0.
pub fn accepted_in(answer: Result<Accepted, Refused>) -> usize
    ensures { result ≡ accepted_by answer }
{
    match answer {
        Ok(_) => 1,
        Err(_) => 0,
    }
}
