// The steps of a run.
ghost use Rattle.std.specs.Prelude.{◌≡◌, ◌≤◌, ◌<◌, length};
ghost use Rattle.streets.specs.State.{answered};
ghost use Rattle.street_runs.specs.Run.{answer_in, entered};
ghost use Rattle.street_runs.specs.Progress.{Countable, Goable, GoesOn, Runnable, RunsOn, counted_by, ended_by, more_by, unsent};

use crate::Ran;
use profiles::Profile;
use refusals::Refusal;
use streets::street_steps::step_in;
use streets::{Fate, Plan, Street};

// An answer's number in the log.
fn number(fate: Fate) -> u8
    ensures { result ≡ answer_in (answered fate) }
{
    match fate {
        Fate::Right => 0,
        Fate::Other => 100,
        Fate::Refused(why) => refusals::number(why),
    }
}

// Writes the three numbers of the step that sends block i, where there is room for them.
fn put(log: &mut [u32], i: usize, meter: usize, turn: usize, answer: u8)
    requires { (meter < 256) × (turn < 16) }
    ensures { log.new ≡ entered i meter turn answer log.old }
{
    if log.len() / 3 <= i {
        return;
    }
    let at = 3 * i;
    log[at] = meter as u32;
    log[at + 1] = turn as u32;
    log[at + 2] = answer as u32;
}

// Before the first step.
pub fn none_sent(answer: Result<(), Refusal>, street: Street) -> Ran
    ensures { result ≡ unsent answer street }
{
    Ran {
        answer,
        sent: 0,
        right: 0,
        other: 0,
        refused: 0,
        none_left: false,
        street,
    }
}

// One block more, of these among the three kinds, and the street after it.
fn one_more(ran: Ran, right: usize, other: usize, refused: usize, street: Street) -> Ran
    requires { Countable ran × (right ≤ 1) × (other ≤ 1) × (refused ≤ 1) }
    ensures { result ≡ more_by ran right other refused street }
{
    let answer = ran.answer;
    Ran {
        answer,
        sent: ran.sent + 1,
        right: ran.right + right,
        other: ran.other + other,
        refused: ran.refused + refused,
        none_left: false,
        street,
    }
}

// One block more, with its answer.
fn counted(ran: Ran, fate: Fate, street: Street) -> Ran
    requires { Countable ran }
    ensures { result ≡ counted_by ran (answered fate) street }
{
    match fate {
        Fate::Right => one_more(ran, 1, 0, 0, street),
        Fate::Other => one_more(ran, 0, 1, 0, street),
        Fate::Refused(_) => one_more(ran, 0, 0, 1, street),
    }
}

// A step answered that none is left.
fn ended(ran: Ran) -> Ran
    ensures { result ≡ ended_by ran }
{
    let answer = ran.answer;
    let street = ran.street;
    Ran {
        answer,
        sent: ran.sent,
        right: ran.right,
        other: ran.other,
        refused: ran.refused,
        none_left: true,
        street,
    }
}

// One step more of a run that passed its checks: none is refused.
fn go_on(
    slot: Option<Profile>,
    plan: Plan,
    ran: Ran,
    log: &mut [u32],
    block: &mut [u8],
    area: &mut [i32],
) -> Ran
    requires { Goable slot plan ran (length block.old) (length area.old) }
    ensures { GoesOn slot plan ran log.old log.new block.old block.new area.old area.new result }
{
    let stepped = step_in(slot, plan, ran.street, block, area);
    match stepped.shown {
        Ok(shown) => match shown {
            Some(sent) => {
                put(log, ran.sent, sent.meter, sent.turn, number(sent.fate));
                counted(ran, sent.fate, stepped.street)
            }
            None => ended(ran),
        },
        Err(_) => ran,
    }
}

// The steps of a run that passed its checks.
pub fn run_steps(
    slot: Option<Profile>,
    plan: Plan,
    start: u32,
    budget: usize,
    log: &mut [u32],
    block: &mut [u8],
    area: &mut [i32],
) -> Ran
    requires { Runnable slot plan start (length block.old) (length area.old) }
    ensures { RunsOn slot plan start budget log.old log.new block.old block.new area.old area.new result }
{
    let mut ran = none_sent(Ok(()), streets::begin(start));
    for _ in 0..budget {
        ran = go_on(slot, plan, ran, log, block, area);
        if ran.none_left {
            return ran;
        }
    }
    ran
}
