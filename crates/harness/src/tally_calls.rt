// The calls of tallies for C and Rust.
ghost use Rattle.tallies.specs.Script.{RunsLent};

// Runs a script of operations on 32 counts, with no name held at the start.
#[unsafe(no_mangle)]
pub extern "C" fn rm_tallies(script: &[u8], answers: &mut [u8], tally: &mut [u32]) -> u64
    ensures { RunsLent script.now answers.old answers.new tally.old tally.new result }
{
    tallies::scripts::run_lent(script, answers, tally)
}
