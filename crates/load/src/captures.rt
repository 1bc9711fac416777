// Captures of a load, written record by record.
ghost use Rattle.std.specs.Prelude.{◌≡◌, true, ◌+◌, ◌*◌, ◌<◌, eqb, length};
ghost use Rattle.tables.specs.Slots.{Proper};
ghost use Rattle.tables.specs.Tables.{is_there, some};
ghost use Rattle.capture.specs.Capture.{record_size, word_size};
ghost use Rattle.load.specs.Records.{Writes};
ghost use Rattle.load.specs.Steps.{RecordDrawn, RecordsDrawn, Usable};

use crate::Captured;
use crate::blocks::draw_block;
use crate::records::put_record;
use crate::starts::check_start;
use generator::Places;
use profiles::Profile;
use refusals::Refusal;

// Draws block i from a state and writes its record, with buffers for the codeword and the block.
fn draw_record_in(
    entry: Profile,
    number: usize,
    i: usize,
    state: u32,
    asked: usize,
    sent: &mut [u8],
    block: &mut [u8],
    out: &mut [u8],
) -> Places
    requires { Usable (some entry) number × (length sent.old ≡ word_size (some entry)) × (length block.old ≡ word_size (some entry)) × (length out.old ≡ record_size (some entry)) }
    ensures { RecordDrawn (some entry) number asked state i out.new result }
{
    let p = draw_block(entry.m, entry.r, state, asked, sent, block);
    put_record((i % 4294967296) as u32, number, block, out);
    p
}

// The same with buffers of its own.
fn draw_record(
    entry: Profile,
    number: usize,
    i: usize,
    state: u32,
    asked: usize,
    out: &mut [u8],
) -> Places
    requires { Usable (some entry) number × (length out.old ≡ record_size (some entry)) }
    ensures { RecordDrawn (some entry) number asked state i out.new result }
{
    let n = words::size(entry.m);
    let mut sent = [0u8; 1024];
    let mut block = [0u8; 1024];
    draw_record_in(
        entry,
        number,
        i,
        state,
        asked,
        &mut sent[0..n],
        &mut block[0..n],
        out,
    )
}

// Draws the blocks and writes their records, of that size each.
fn draw_records(
    entry: Profile,
    number: usize,
    start: u32,
    asked: usize,
    blocks: usize,
    size: usize,
    out: &mut [u8],
) -> Captured
    requires { Usable (some entry) number × (size ≡ record_size (some entry)) × (length out.old ≡ blocks * record_size (some entry)) }
    ensures { RecordsDrawn (some entry) number asked start blocks out.new result }
{
    let mut state = start;
    let mut short = 0;
    for i in 0..blocks {
        let at = i * size;
        let p = draw_record(entry, number, i, state, asked, &mut out[at..at + size]);
        state = p.state;
        short += usize::from(p.wrong < asked);
    }
    Captured {
        answer: Ok(()),
        state,
        short,
    }
}

// Whether a length is that of a capture: by division, since the product may be greater than any length.
fn is_length(length: usize, blocks: usize, size: usize) -> bool
    requires { 0 < size }
    ensures { result ≡ eqb length (5 + blocks * size) }
{
    if length < 5 {
        return false;
    }
    let rest = length - 5;
    if rest % size != 0 {
        return false;
    }
    rest / size == blocks
}

// The capture of a load, by what a table has at a number.
pub fn capture_in(
    slot: Option<Profile>,
    number: usize,
    start: u32,
    asked: usize,
    blocks: usize,
    out: &mut [u8],
) -> Captured
    requires { Proper slot × (is_there slot ≡ true → number < 256) }
    ensures { Writes slot number start asked blocks out.old out.new result }
{
    let entry = match check_start(slot, start, asked) {
        Ok(entry) => entry,
        Err(why) => {
            return Captured {
                answer: Err(why),
                state: start,
                short: 0,
            };
        }
    };
    let size = 5 + words::size(entry.m) / 8;
    if !is_length(out.len(), blocks, size) {
        return Captured {
            answer: Err(Refusal::OutputLength),
            state: start,
            short: 0,
        };
    }
    header::put_header(&mut out[0..5]);
    draw_records(entry, number, start, asked, blocks, size, &mut out[5..])
}
