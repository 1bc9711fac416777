// The capture reader: the record that starts at a position.
#![tactic(auto)]

ghost use Rattle.std.specs.Prelude.{◌≡◌, ◌+◌, ◌%◌, ◌^◌, ◌≤◌, ◌<◌, length};
ghost use Rattle.tables.specs.Tables.{some};
ghost use Rattle.tables.specs.Limits.{InLimits};
ghost use Rattle.tables.specs.Slots.{Proper};
ghost use Rattle.capture.specs.Capture.{profile_at, serial_of, word_size, body_length, Finds, Stands};

use profiles::Profile;
use refusals::Refusal;
use tables::Profiles;

// A record of a capture, and the position after it.
#[derive(Clone, Copy)]
pub struct Record {
    pub serial: u32,
    pub profile: usize,
    pub next: usize,
}

// Why there is no record, and the serial, 0 where it is not printed.
#[derive(Clone, Copy)]
pub struct NoRecord {
    pub why: Refusal,
    pub serial: u32,
}

// The number of the first four bytes, the senior one first.
fn serial_of(part: &[u8]) -> u32
    requires { 4 ≤ length part.now }
    ensures { result ≡ serial_of part.now }
{
    ((u32::from(part[0]) * 256 + u32::from(part[1])) * 256 + u32::from(part[2])) * 256
        + u32::from(part[3])
}

// The profile of the record at the start of the part, 0 where it is not there.
pub fn number_at(start: &[u8]) -> usize
    ensures { result ≡ profile_at start.now }
{
    if start.len() < 5 {
        return 0;
    }
    usize::from(start[4])
}

// The word length of an entry.
fn word_size(p: Profile) -> usize
    requires { InLimits p }
    ensures { (result ≡ word_size (some p)) × (result ≤ 1024) × (result % 8 ≡ 0) }
{
    words::size(p.m)
}

// The record at the start of the part, which stands at position `at` of the capture, by what the table has at its profile. Its bits are
// unpacked into the word. Any other answer leaves the word as it was.
pub fn record_in(
    slot: Option<Profile>,
    part: &[u8],
    at: usize,
    word: &mut [u8],
) -> Result<Option<Record>, NoRecord>
    requires { Proper slot × (at + length part.now < 2 ^ 64) }
    ensures { Stands slot part.now at word.old word.new result }
{
    if part.len() == 0 {
        return Ok(None);
    }
    if part.len() < 5 {
        return Err(NoRecord {
            why: Refusal::Truncated,
            serial: 0,
        });
    }
    let serial = serial_of(part);
    let profile = usize::from(part[4]);
    let p = slot.ok_or(NoRecord {
        why: Refusal::Profile,
        serial,
    })?;
    let n = word_size(p);
    let end = 5 + n / 8;
    if part.len() < end {
        return Err(NoRecord {
            why: Refusal::Truncated,
            serial: 0,
        });
    }
    if word.len() != n {
        return Err(NoRecord {
            why: Refusal::OutputLength,
            serial,
        });
    }
    unpacking::unpack(part, word);
    Ok(Some(Record {
        serial,
        profile,
        next: at + end,
    }))
}

// The record at a position of the capture, under a table or document 01's.
pub fn find_record<P: Profiles>(
    profiles: &P,
    capture: &[u8],
    at: usize,
    word: &mut [u8],
) -> Result<Option<Record>, NoRecord>
    ensures { Finds (P.table profiles.now) capture.now at word.old word.new result }
{
    if capture.len() <= at {
        return Ok(None);
    }
    let number = number_at(&capture[at..]);
    let slot = profiles.look(number);
    record_in(slot, &capture[at..], at, word)
}

// How many bytes follow the five of a record's head: 0 where there are fewer than five or the profile is unknown.
pub fn body_length(slot: Option<Profile>, head: &[u8]) -> usize
    requires { Proper slot }
    ensures { (result ≡ body_length slot head.now) × (result ≤ 128) }
{
    if head.len() < 5 {
        return 0;
    }
    match slot {
        Some(p) => word_size(p) / 8,
        None => 0,
    }
}
