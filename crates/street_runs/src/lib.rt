// Runs of a street from its start: so many steps at most, their log and counts.
#![tactic(auto)]

ghost use Rattle.std.specs.Prelude.{[]};
ghost use Rattle.refusals.specs.Refusals.{Checked};
ghost use Rattle.tables.specs.Slots.{Proper};
ghost use Rattle.tables.specs.Tables.{slot_of};
ghost use Rattle.street_runs.specs.Run.{Runs, run_checks};

use profiles::Profile;
use refusals::Refusal;
use stepping::{none_sent, run_steps};
use streets::street_checks::{check_room, check_settings};
use streets::{Plan, Street};
use tables::Profiles;

mod stepping;

// What a run answers: the blocks sent, those accepted right, accepted as another codeword and refused, whether a step answered that none is
// left, and the street after it.
#[derive(Clone, Copy)]
pub struct Ran {
    pub answer: Result<(), Refusal>,
    pub sent: usize,
    pub right: usize,
    pub other: usize,
    pub refused: usize,
    pub none_left: bool,
    pub street: Street,
}

// 23, 24, 14, 21, 22, 6 and 7.
fn check_run(
    slot: Option<Profile>,
    plan: Plan,
    state: u32,
    room: usize,
    area: usize,
) -> Result<(), Refusal>
    requires { Proper slot }
    ensures { Checked (run_checks slot plan state room area) [] result }
{
    let entry = check_settings(slot, plan, state)?;
    check_room(entry, room, area)
}

// A run, by what a table has at the profile's number.
fn run_in(
    slot: Option<Profile>,
    plan: Plan,
    start: u32,
    budget: usize,
    log: &mut [u32],
    block: &mut [u8],
    area: &mut [i32],
) -> Ran
    requires { Proper slot }
    ensures { Runs slot plan start budget log.old log.new block.old block.new area.old area.new result }
{
    let checked = check_run(slot, plan, start, block.len(), area.len());
    if let Err(why) = checked {
        return none_sent(Err(why), streets::begin(start));
    }
    run_steps(slot, plan, start, budget, log, block, area)
}

// A run of at most `budget` steps under a table, or document 01's, from the start: three numbers a step go into the log, where there is
// room for them.
pub fn run<P: Profiles>(
    profiles: &P,
    number: usize,
    plan: Plan,
    start: u32,
    budget: usize,
    log: &mut [u32],
    block: &mut [u8],
    area: &mut [i32],
) -> Ran
    ensures { Runs (slot_of (P.table profiles.now) number) plan start budget log.old log.new block.old block.new area.old area.new result }
{
    run_in(profiles.look(number), plan, start, budget, log, block, area)
}
