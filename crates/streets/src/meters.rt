// Who sends next.
ghost use Rattle.std.specs.Prelude.{◌≡◌, ◌≤◌};
ghost use Rattle.streets.specs.State.{sender_of, waits_from};
ghost use Rattle.streets.specs.MeterLaws.{Found};

use crate::{Plan, Street};

// A meter that is to send, at a try.
#[derive(Clone, Copy)]
pub struct Due {
    pub meter: usize,
    pub turn: usize,
}

// Whether a meter i, with this in its place of `due`, stands at `from` or after it and is to send.
fn waits(d: u8, from: usize, i: usize) -> bool
    ensures { result ≡ waits_from d from i }
{
    if i < from {
        return false;
    }
    d != 0
}

// The first meter from `from` on that is to send.
fn next_due(due: [u8; 256], meters: usize, from: usize) -> Option<usize>
    requires { meters ≤ 256 }
    ensures { Found due meters from result }
{
    // By index: a meter's place says whether it has had the turn.
    for i in 0..meters {
        if waits(due[i], from, i) {
            return Some(i);
        }
    }
    None
}

// Nobody, or the meter that is to send.
pub fn next_sender(plan: Plan, street: Street) -> Option<Due>
    requires { plan.meters ≤ 256 }
    ensures { result ≡ sender_of plan street }
{
    let due = street.due;
    if let Some(meter) = next_due(due, plan.meters, street.at) {
        let turn = street.turn;
        return Some(Due { meter, turn });
    }
    if plan.retries <= street.turn {
        return None;
    }
    let meter = next_due(due, plan.meters, 0)?;
    let turn = street.turn + 1;
    Some(Due { meter, turn })
}
