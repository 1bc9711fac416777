// Calls that passed their checks.
ghost use Rattle.std.specs.Prelude.{◌≤◌, length, pos};
ghost use Rattle.words.specs.Written.{Written};
ghost use Rattle.area.specs.Area.{at};
ghost use Rattle.rule.specs.Decoding.{limited};
ghost use Rattle.confidences.specs.Confidences;
ghost use Rattle.confidences.specs.Answers.{DecodesValues};
ghost use Rattle.confidence_decoder.specs.Runs.{RunsValues};

use crate::answers::answered;
use delivery::deliver;
use profiles::Profile;
use refusals::{Accepted, Refused};
use value_readings::read;

// Puts the values in the front of the area.
fn load(values: &[i16], area: &mut [i32])
    requires { length values.now ≤ length area.old }
    ensures { Written (pos 0) 0 (length values.now) (at values.now) area.old area.new }
{
    for (i, x) in values.iter().enumerate() {
        area[i] = i32::from(*x);
    }
}

// A call that passed its checks, read in the area.
pub fn run(
    by: Profile,
    values: &[i16],
    out: &mut [u8],
    area: &mut [i32],
) -> Result<Accepted, Refused>
    requires { RunsValues by.m by.r by.leaves values.now out.old area.old }
    ensures { DecodesValues by.m by.r by.rounds (limited by.leaves (Rattle.confidences.specs.Confidences.reading by.r by.m by.rounds values.now)) values.now out.old out.new area.old area.new result }
{
    load(values, area);
    let ended = read(by.m, by.r, by.rounds, by.leaves, area);
    let answer = ended.answer;
    deliver(answer, area, out);
    area::fill(area, 0);
    answered(ended, by.m, values, out)
}
