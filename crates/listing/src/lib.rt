// A reader's listing, a part of a capture at a time, under a table.
#![tactic(auto)]

ghost use Rattle.std.specs.Prelude.{◌≤◌, length};
ghost use Rattle.pieces.specs.Pieces.{Lists, Turn};
ghost use Rattle.readers.specs.Readers.{lines_for};

use pieces::Listed;
use readers::Reader;
use tables::{Profiles, Table};

// The same as `list_part`, by way of two buffers for the longest words.
fn list_in(
    reader: Reader,
    table: Table,
    part: &[u8],
    last: bool,
    word: &mut [u8],
    decoded: &mut [u8],
    out: &mut [u8],
    area: &mut [i32],
) -> Listed
    requires { (1024 ≤ length word.old) × (1024 ≤ length decoded.old) }
    ensures { Lists table (lines_for reader) part.now last out.old out.new area.old area.new result }
{
    let mut d = Listed {
        consumed: 0,
        written: 0,
        records: 0,
        accepted: 0,
        ended: false,
    };
    // By what was listed: records differ in length, so that no range counts them.
    while !d.ended {
        let from = d.consumed;
        let to = d.written;
        let number = capture::number_at(&part[from..]);
        let slot = table.look(number);
        if !pieces::is_ready(slot, &part[from..], last, out.len() - to, area.len()) {
            return d;
        }
        let lent = pieces::lent(slot, &part[from..], from == 0, area.len());
        d = pieces::joined(
            d,
            entries::list_one(
                reader,
                slot,
                &part[from..],
                word,
                decoded,
                out,
                to,
                &mut area[0..lent],
            ),
        );
    }
    d
}

// The same, by way of one; the other is cleared once a part, not once a record.
fn list_by(
    reader: Reader,
    table: Table,
    part: &[u8],
    last: bool,
    word: &mut [u8],
    out: &mut [u8],
    area: &mut [i32],
) -> Listed
    requires { 1024 ≤ length word.old }
    ensures { Lists table (lines_for reader) part.now last out.old out.new area.old area.new result }
{
    let mut decoded = [0u8; 1024];
    list_in(reader, table, part, last, word, &mut decoded, out, area)
}

// Lists a part of a capture that starts at a record: of the records that are whole in it, as many as have room in the output. `last`
// where the input ends with the part: then a record that is not whole is listed too. The area has at least 8 × n numbers for the
// longest word.
pub fn list_part(
    reader: Reader,
    table: Table,
    part: &[u8],
    last: bool,
    out: &mut [u8],
    area: &mut [i32],
) -> Listed
    ensures { Lists table (lines_for reader) part.now last out.old out.new area.old area.new result }
{
    let mut word = [0u8; 1024];
    list_by(reader, table, part, last, &mut word, out, area)
}

// Lists the bytes that a program holds, and moves those that are left to the front.
pub fn list_held(
    reader: Reader,
    table: Table,
    held: &mut [u8],
    last: bool,
    out: &mut [u8],
    area: &mut [i32],
) -> Listed
    ensures { Turn table (lines_for reader) held.old held.new last out.old out.new area.old area.new result }
{
    let d = list_part(reader, table, held, last, out, area);
    let from = d.consumed;
    pieces::move_down(held, from);
    d
}
