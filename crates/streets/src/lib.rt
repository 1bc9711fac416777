// Streets tried out before the digging: meters that send in turn, each block the next of one load, one block a step.
#![tactic(auto)]

ghost use Rattle.std.specs.Prelude.{◌≡◌};
ghost use Rattle.tables.specs.Tables.{slot_of};
ghost use Rattle.streets.specs.State.{Steps, begins};

use refusals::Refusal;
use street_steps::step_in;
use tables::Profiles;

mod meters;
mod sends;
pub mod street_checks;
pub mod street_steps;

// The settings beside the profile: the wrong places asked in a block, the meters, and in how many later turns those refused send again.
#[derive(Clone, Copy)]
pub struct Plan {
    pub wrong: usize,
    pub meters: usize,
    pub retries: usize,
}

// How far a street is: the load's state, the turn, the meters below `at` have had it, and which meters are to send (not 0): those from `at`
// on in this turn, those below it, which were refused, in the next.
#[derive(Clone, Copy)]
pub struct Street {
    pub state: u32,
    pub turn: usize,
    pub at: usize,
    pub due: [u8; 256],
}

// What became of a block: accepted right, accepted as another codeword, or refused.
#[derive(Clone, Copy)]
pub enum Fate {
    Right,
    Other,
    Refused(Refusal),
}

// A block sent: the meter, its try and what became of the block.
#[derive(Clone, Copy)]
pub struct Sent {
    pub meter: usize,
    pub turn: usize,
    pub fate: Fate,
}

// What a step shows, nothing where no meter is left, and the street after it.
#[derive(Clone, Copy)]
pub struct Stepped {
    pub shown: Result<Option<Sent>, Refusal>,
    pub street: Street,
}

// The street before its first step.
pub fn begin(start: u32) -> Street
    ensures { result ≡ begins start }
{
    Street {
        state: start,
        turn: 0,
        at: 0,
        due: [1; 256],
    }
}

// One step under a table, or document 01's: the next meter sends. A refused step, and one with no meter left, leave the street, the block
// and the area.
pub fn step<P: Profiles>(
    profiles: &P,
    number: usize,
    plan: Plan,
    street: Street,
    block: &mut [u8],
    area: &mut [i32],
) -> Stepped
    ensures { Steps (slot_of (P.table profiles.now) number) plan street block.old block.new area.old area.new result }
{
    step_in(profiles.look(number), plan, street, block, area)
}
