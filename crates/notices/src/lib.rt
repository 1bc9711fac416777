// The lines that stay the same for every reader: of a wrong header, and the last.
#![tactic(auto)]

ghost use Rattle.std.specs.Prelude.{◌+◌, ◌≤◌, length};
ghost use Rattle.text.specs.Texts.{Added};
ghost use Rattle.lines.specs.Lines.{header_line, last_line};
ghost use Rattle.pieces.specs.Pieces.{Puts};

use refusals::Refusal;
use text::Writer;

// The last line, put after what the output holds already.
fn put_last(w: &mut Writer, records: u64, accepted: u64)
    requires { w.old.at + length (last_line records accepted) ≤ length w.old.out.now }
    ensures { Added (last_line records accepted) w.old w.new }
{
    w.put_decimal(records);
    w.put_text(b" records, ");
    w.put_decimal(accepted);
    w.put_text(b" accepted");
    w.put_byte(10);
}

// The last line, in an output of at least 60 bytes. Answers its length.
pub fn last_line(records: u64, accepted: u64, out: &mut [u8]) -> usize
    ensures { Puts 60 (last_line records accepted) out.old result out.new }
{
    if out.len() < 60 {
        return 0;
    }
    let mut w = Writer { out, at: 0 };
    put_last(&mut w, records, accepted);
    w.at
}

// The line of a capture with a wrong header, put after what the output holds already.
fn put_header(w: &mut Writer)
    requires { w.old.at + length header_line ≤ length w.old.out.now }
    ensures { Added header_line w.old w.new }
{
    w.put_text(b"file");
    lines::put_refusal(w, refusals::number(Refusal::Header));
    w.put_byte(10);
}

// All that is printed of a capture with a wrong header, in an output of at least 16 bytes. Answers its length.
pub fn header_line(out: &mut [u8]) -> usize
    ensures { Puts 16 header_line out.old result out.new }
{
    if out.len() < 16 {
        return 0;
    }
    let mut w = Writer { out, at: 0 };
    put_header(&mut w);
    w.at
}
