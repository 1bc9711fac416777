// Calls that passed their checks.
ghost use Rattle.std.specs.Prelude.{◌≡◌};
ghost use Rattle.rule.specs.Reading;
ghost use Rattle.rule.specs.Decoding.{limited, zeros};
ghost use Rattle.rule.specs.Calls.{Decodes};
ghost use Rattle.direct.specs.Direct.{Gives};
ghost use Rattle.decoder.specs.Runs.{Runs};

use crate::answers::answered;
use delivery::deliver;
use profiles::Profile;
use readings::reading;
use refusals::{Accepted, Refused};
use told::Told;

// A call that passed its checks, read in the area.
fn run_in_area(by: Profile, word: &[u8], out: &mut [u8], area: &mut [i32]) -> Told
    requires { Runs by.m by.r by.rounds by.leaves word.now out.old area.old }
    ensures given { Gives (limited by.leaves (Rattle.rule.specs.Reading.reading by.r by.m by.rounds word.now)) word.now out.old out.new result }
    ensures cleared { area.new ≡ zeros area.old }
{
    area::load(word, area);
    let told = reading(by.m, by.r, by.rounds, by.leaves, area);
    deliver(told.answer, area, out);
    area::fill(area, 0);
    told
}

// A call that passed its checks: a block of order 1 with 32 to 128 places goes from its bytes to the output's, any other through the area.
// Numbers, no Profile: array_lines calls it, and docs/ARCHITECTURE.md names it.
pub fn run(
    m: usize,
    r: usize,
    rounds: usize,
    leaves: usize,
    word: &[u8],
    out: &mut [u8],
    area: &mut [i32],
) -> Result<Accepted, Refused>
    requires { Runs m r rounds leaves word.now out.old area.old }
    ensures { Decodes m (limited leaves (Rattle.rule.specs.Reading.reading r m rounds word.now)) word.now out.old out.new area.old area.new result }
{
    if r == 1 && 4 < m && m < 8 {
        let told = direct::read_block(m, word, out, area);
        return answered(told, m, word, out);
    }
    let by = Profile {
        m,
        r,
        rounds,
        leaves,
    };
    let told = run_in_area(by, word, out, area);
    answered(told, m, word, out)
}
