// The checks of a street, in their order.
ghost use Rattle.std.specs.Prelude.{[]};
ghost use Rattle.refusals.specs.Refusals.{Checked};
ghost use Rattle.tables.specs.Limits.{InLimits};
ghost use Rattle.tables.specs.Slots.{Proper};
ghost use Rattle.tables.specs.Tables.{some};
ghost use Rattle.streets.specs.State.{plan_checks, room_checks};
ghost use Rattle.streets.specs.Calls.{Permits};

use crate::Plan;
use load::starts::check_start;
use profiles::Profile;
use refusals::Refusal;

// 23 and 24.
fn check_plan(plan: Plan) -> Result<(), Refusal>
    ensures { Checked (plan_checks plan) [] result }
{
    if plan.meters < 1 {
        return Err(Refusal::Meters);
    }
    if 256 < plan.meters {
        return Err(Refusal::Meters);
    }
    if 15 < plan.retries {
        return Err(Refusal::Retries);
    }
    Ok(())
}

// 23, 24, 14, 21 and 22: the entry, where it passes.
pub fn check_settings(slot: Option<Profile>, plan: Plan, state: u32) -> Result<Profile, Refusal>
    requires { Proper slot }
    ensures { Permits slot plan state result }
{
    check_plan(plan)?;
    check_start(slot, state, plan.wrong)
}

// 6 and 7.
pub fn check_room(entry: Profile, room: usize, area: usize) -> Result<(), Refusal>
    requires { InLimits entry }
    ensures { Checked (room_checks (some entry) room area) [] result }
{
    let n = words::size(entry.m);
    let least = 8 * n;
    if room != n {
        return Err(Refusal::OutputLength);
    }
    if area < least {
        return Err(Refusal::AreaLength);
    }
    Ok(())
}
