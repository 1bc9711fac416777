// Steps of a street, by what a table has at the profile's number.
ghost use Rattle.std.specs.Prelude.{◌≡◌, ◌<◌, length};
ghost use Rattle.refusals.specs.Refusals.{first_refusal};
ghost use Rattle.tables.specs.Slots.{Proper};
ghost use Rattle.streets.specs.State.{Leaves, Steps, answered, room_checks, shows_by};
ghost use Rattle.streets.specs.Calls.{Ready, again_of, refusing, sending};
ghost use Rattle.streets.specs.Street.{Meter};
ghost use Rattle.tables.specs.Tables.{some};

use crate::meters::next_sender;
use crate::sends::{Sending, send};
use crate::street_checks::{check_room, check_settings};
use crate::{Fate, Plan, Sent, Stepped, Street};
use profiles::Profile;
use refusals::Refusal;

// A refused step leaves the street.
fn refuse(why: Refusal, street: Street) -> Stepped
    ensures { result ≡ refusing why street }
{
    Stepped {
        shown: Err(why),
        street,
    }
}

// Not 0 where the meter sends again in the next turn.
fn again(fate: Fate) -> u8
    ensures { result ≡ again_of (answered fate) }
{
    match fate {
        Fate::Right => 0,
        Fate::Other => 0,
        Fate::Refused(_) => 1,
    }
}

// The street after meter i has sent at a try.
fn sent_by(street: Street, i: usize, turn: usize, sent: Sending) -> Stepped
    requires { i < 256 }
    ensures { result ≡ sending street i turn sent }
{
    let fate = sent.fate;
    let mut due = street.due;
    due[i] = again(fate);
    Stepped {
        shown: Ok(Some(Sent {
            meter: i,
            turn,
            fate,
        })),
        street: Street {
            state: sent.state,
            turn,
            at: i + 1,
            due,
        },
    }
}

// Meter i is the one to send: 6, 7, or its block.
fn send_next(
    entry: Profile,
    plan: Plan,
    street: Street,
    i: usize,
    turn: usize,
    block: &mut [u8],
    area: &mut [i32],
) -> Stepped
    requires { Ready (some entry) i }
    ensures { Leaves (some entry) plan street (shows_by (some entry) plan street (first_refusal (room_checks (some entry) (length block.old) (length area.old))) (Meter i turn)) block.old block.new area.old area.new result }
{
    if let Err(why) = check_room(entry, block.len(), area.len()) {
        return refuse(why, street);
    }
    let sent = send(entry, plan.wrong, street.state, block, area);
    sent_by(street, i, turn, sent)
}

// One step: the next meter sends.
pub fn step_in(
    slot: Option<Profile>,
    plan: Plan,
    street: Street,
    block: &mut [u8],
    area: &mut [i32],
) -> Stepped
    requires { Proper slot }
    ensures { Steps slot plan street block.old block.new area.old area.new result }
{
    let entry = match check_settings(slot, plan, street.state) {
        Ok(entry) => entry,
        Err(why) => return refuse(why, street),
    };
    match next_sender(plan, street) {
        Some(due) => send_next(entry, plan, street, due.meter, due.turn, block, area),
        None => Stepped {
            shown: Ok(None),
            street,
        },
    }
}
