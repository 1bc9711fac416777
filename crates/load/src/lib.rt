// Loads that anyone can repeat: blocks, and captures of them.
#![tactic(auto)]

ghost use Rattle.std.specs.Prelude.{◌≡◌};
ghost use Rattle.tables.specs.Slots.{Proper};
ghost use Rattle.tables.specs.Tables.{slot_of};
ghost use Rattle.load.specs.Load.{Draws};
ghost use Rattle.load.specs.Records.{Writes};
ghost use Rattle.load.specs.Steps.{refusing};

use blocks::draw_block;
use captures::capture_in;
use profiles::Profile;
use refusals::Refusal;
use starts::check_start;
use tables::Profiles;

pub mod blocks;
mod captures;
mod records;
pub mod starts;

// What a call for a block answers: the state after it, and whether the block was left short.
#[derive(Clone, Copy)]
pub struct Next {
    pub answer: Result<(), Refusal>,
    pub state: u32,
    pub short: bool,
}

// What a call for a capture answers: the state after the last block, and how many blocks were left short.
#[derive(Clone, Copy)]
pub struct Captured {
    pub answer: Result<(), Refusal>,
    pub state: u32,
    pub short: usize,
}

// A refused call makes no step.
fn refuse(why: Refusal, state: u32) -> Next
    ensures { result ≡ refusing why state }
{
    Next {
        answer: Err(why),
        state,
        short: false,
    }
}

// The next block of a load, by what there is at its number.
fn next_in(slot: Option<Profile>, state: u32, asked: usize, word: &mut [u8]) -> Next
    requires { Proper slot }
    ensures { Draws slot state asked word.old word.new result }
{
    let entry = match check_start(slot, state, asked) {
        Ok(entry) => entry,
        Err(why) => return refuse(why, state),
    };
    let n = words::size(entry.m);
    if word.len() != n {
        return refuse(Refusal::OutputLength, state);
    }
    let mut sent = [0u8; 1024];
    let p = draw_block(entry.m, entry.r, state, asked, &mut sent[0..n], word);
    Next {
        answer: Ok(()),
        state: p.state,
        short: p.wrong < asked,
    }
}

// The next block of a load under a table, or document 01's.
pub fn next_block<P: Profiles>(
    profiles: &P,
    number: usize,
    state: u32,
    asked: usize,
    word: &mut [u8],
) -> Next
    ensures { Draws (slot_of (P.table profiles.now) number) state asked word.old word.new result }
{
    next_in(profiles.look(number), state, asked, word)
}

// The capture of so many blocks of a load under a table, or document 01's.
pub fn write_capture<P: Profiles>(
    profiles: &P,
    number: usize,
    start: u32,
    asked: usize,
    blocks: usize,
    out: &mut [u8],
) -> Captured
    ensures { Writes (slot_of (P.table profiles.now) number) number start asked blocks out.old out.new result }
{
    capture_in(profiles.look(number), number, start, asked, blocks, out)
}
