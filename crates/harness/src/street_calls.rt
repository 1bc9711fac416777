// The call of streets for C and Rust.
ghost use Rattle.tables.specs.Tables.{ours, slot_of};
ghost use Rattle.packing.specs.Streets.{ReturnsStreet};

use packing::runs::pack_ran;
use streets::Plan;
use tables::Standard;

// Starts a street and makes steps until so many have sent a block, or one answers that none is left.
#[unsafe(no_mangle)]
pub extern "C" fn rm_street(
    meters: usize,
    retries: usize,
    profile: usize,
    start: u32,
    wrong: usize,
    steps: usize,
    log: &mut [u32],
    word: &mut [u8],
    area: &mut [i32],
) -> u64
    ensures { ReturnsStreet (slot_of ours profile) (record { wrong = wrong; meters = meters; retries = retries }) start steps log.old log.new word.old word.new area.old area.new result }
{
    let plan = Plan {
        wrong,
        meters,
        retries,
    };
    let ran = street_runs::run(&Standard, profile, plan, start, steps, log, word, area);
    pack_ran(ran)
}
