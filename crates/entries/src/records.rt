// The line of a record: its word decoded, and the reader's line of what the decoder gave.
ghost use Rattle.std.specs.Prelude.{◌≡◌, ◌+◌, ◌≤◌, length};
ghost use Rattle.rule.specs.Decoding.{zeros};
ghost use Rattle.lines.specs.Lines.{record_entry};
ghost use Rattle.readers.specs.Readers.{lines_for};
ghost use Rattle.entries.specs.Decodable.{Decodable, Lined};

use profiles::Profile;
use readers::Reader;

// Where a line ends, and 1 where its record was accepted.
#[derive(Clone, Copy)]
pub struct Line {
    pub end: usize,
    pub accepted: usize,
}

// The line of a record with that word, by way of `decoded`.
pub fn record_line(
    reader: Reader,
    serial: u32,
    number: usize,
    p: Profile,
    word: &mut [u8],
    decoded: &mut [u8],
    out: &mut [u8],
    at: usize,
    area: &mut [i32],
) -> Line
    requires { Decodable p word.old (length decoded.old) (length area.old) × (at + 268 ≤ length out.old) }
    ensures { Lined (record_entry (lines_for reader) serial number p word.old) out.old at out.new result × (area.new ≡ zeros area.old) }
{
    let answer = decoder::decode(p.m, p.r, p.rounds, p.leaves, word, decoded, area);
    Line {
        end: readers::record_line(reader, serial, number, p, answer, decoded, word, out, at),
        accepted: lines::accepted_in(answer),
    }
}
