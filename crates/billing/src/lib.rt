// Billing's line of a record: the message of its codeword, or the refusal.
#![tactic(auto)]

ghost use Rattle.std.specs.Prelude.{◌≡◌, ℕ, ◌+◌, ◌≤◌, length};
ghost use Rattle.code.specs.Code.{message_of};
ghost use Rattle.lines.specs.Lines.{accepted_line, billing_line, decoded_by};
ghost use Rattle.text.specs.Texts.{Appended, Bits, Added};
ghost use Rattle.billing.specs.Accepted.{AcceptedWord, Answered, Readable};

use profiles::Profile;
use refusals::{Accepted, Refused};
use text::Writer;

// The line of a record with that message.
fn put_accepted(w: &mut Writer, serial: u32, message: &[u8])
    requires { Bits message.now × (length message.now ≤ 1024) × (w.old.at + length (accepted_line serial message.now) ≤ length w.old.out.now) }
    ensures { Added (accepted_line serial message.now) w.old w.new }
{
    w.put_ten(serial);
    w.put_byte(32);
    w.at = hex_digits::put_hex(message, w.out, w.at);
    w.put_byte(10);
}

// The line of a codeword's message. The message reader cannot refuse it.
fn message_line(w: &mut Writer, serial: u32, m: usize, r: usize, decoded: &[u8], message: &mut [u8])
    requires { Readable m r decoded.now (length message.old) × (w.old.at + 268 ≤ length w.old.out.now) }
    ensures { Added (accepted_line serial (message_of m r decoded.now)) w.old w.new }
{
    let _ = codec::read_message(m, r, decoded, message);
    put_accepted(w, serial, message);
}

// The line of an accepted record, under its entry of the table, by way of a buffer of n bytes for its message.
fn accepted_line(w: &mut Writer, serial: u32, p: Profile, decoded: &[u8], buffer: &mut [u8])
    requires { AcceptedWord p decoded.now × (length buffer.old ≡ length decoded.now) × (w.old.at + 268 ≤ length w.old.out.now) }
    ensures { Added (accepted_line serial (message_of p.m p.r decoded.now)) w.old w.new }
{
    let k = messages::dimension(p.m, p.r);
    message_line(w, serial, p.m, p.r, decoded, &mut buffer[0..k]);
}

// The line of a record, by the decoder's answer to its word and what it put out. The word's buffer serves for the message.
fn put_record(
    w: &mut Writer,
    serial: u32,
    p: Profile,
    answer: Result<Accepted, Refused>,
    decoded: &[u8],
    word: &mut [u8],
)
    requires { Answered p word.old decoded.now answer × (w.old.at + 268 ≤ length w.old.out.now) }
    ensures { (number : ℕ) → Added (billing_line serial number p word.old (decoded_by p word.old)) w.old w.new }
{
    match answer {
        Ok(_) => accepted_line(w, serial, p, decoded, word),
        Err(refused) => lines::refused_line(w, serial, refusals::number(refused.why)),
    }
}

// The line of a record, whatever its profile's number.
pub fn record_line(
    serial: u32,
    p: Profile,
    answer: Result<Accepted, Refused>,
    decoded: &[u8],
    word: &mut [u8],
    out: &mut [u8],
    at: usize,
) -> usize
    requires { Answered p word.old decoded.now answer × (at + 268 ≤ length out.old) }
    ensures { (number : ℕ) → Appended out.old at (billing_line serial number p word.old (decoded_by p word.old)) result out.new }
{
    let mut w = Writer { out, at };
    put_record(&mut w, serial, p, answer, decoded, word);
    w.at
}
