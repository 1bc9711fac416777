// The reader's line of what stands at the start of a part of a capture.
#![tactic(auto)]

ghost use Rattle.std.specs.Prelude.{◌≡◌, ◌+◌, ◌*◌, ◌≤◌, length};
ghost use Rattle.capture.specs.Capture.{body_length};
ghost use Rattle.tables.specs.Slots.{Proper};
ghost use Rattle.pieces.specs.Steps.{Steps};
ghost use Rattle.readers.specs.Readers.{lines_for};

use pieces::Listed;
use profiles::Profile;
use readers::Reader;

mod records;

// The line of what stands at the start of the part, by way of a word buffer of its size. 14, 16 and no byte left end the listing.
fn list_found(
    reader: Reader,
    slot: Option<Profile>,
    part: &[u8],
    word: &mut [u8],
    decoded: &mut [u8],
    out: &mut [u8],
    at: usize,
    area: &mut [i32],
) -> Listed
    requires { Proper slot × (length word.old ≡ 8 * body_length slot part.now) × (length decoded.old ≡ length word.old) × (at + 268 ≤ length out.old) × (64 * body_length slot part.now ≤ length area.old) }
    ensures { Steps (lines_for reader) slot part.now out.old at out.new area.old area.new result }
{
    let found = match capture::record_in(slot, part, 0, word) {
        Ok(found) => found,
        Err(missing) => {
            return Listed {
                consumed: part.len(),
                written: readers::refusal_line(reader, missing.why, missing.serial, out, at),
                records: 1,
                accepted: 0,
                ended: true,
            };
        }
    };
    match found {
        None => Listed {
            consumed: 0,
            written: at,
            records: 0,
            accepted: 0,
            ended: true,
        },
        Some(record) => {
            let line = records::record_line(
                reader,
                record.serial,
                record.profile,
                // A record was found, so that its profile is there.
                slot.unwrap(),
                word,
                decoded,
                out,
                at,
                area,
            );
            Listed {
                consumed: record.next,
                written: line.end,
                records: 1,
                accepted: line.accepted,
                ended: false,
            }
        }
    }
}

// The line of what stands at the start of the part, by what the table has at its profile, by way of two buffers for the longest words.
pub fn list_one(
    reader: Reader,
    slot: Option<Profile>,
    part: &[u8],
    word: &mut [u8],
    decoded: &mut [u8],
    out: &mut [u8],
    at: usize,
    area: &mut [i32],
) -> Listed
    requires { Proper slot × (1024 ≤ length word.old) × (1024 ≤ length decoded.old) × (at + 268 ≤ length out.old) × (64 * body_length slot part.now ≤ length area.old) }
    ensures { Steps (lines_for reader) slot part.now out.old at out.new area.old area.new result }
{
    let bits = 8 * capture::body_length(slot, part);
    list_found(
        reader,
        slot,
        part,
        &mut word[0..bits],
        &mut decoded[0..bits],
        out,
        at,
        area,
    )
}
