// The checks of a load's start.
ghost use Rattle.tables.specs.Slots.{Proper};
ghost use Rattle.load.specs.Steps.{Started};

use profiles::Profile;
use refusals::Refusal;

// 14, 21 and 22: the entry, where it passes.
pub fn check_start(slot: Option<Profile>, state: u32, asked: usize) -> Result<Profile, Refusal>
    requires { Proper slot }
    ensures { Started slot state asked result }
{
    let entry = slot.ok_or(Refusal::Profile)?;
    let n = words::size(entry.m);
    if state == 0 {
        return Err(Refusal::LoadStart);
    }
    if n < asked {
        return Err(Refusal::WrongPlaces);
    }
    Ok(entry)
}
