// The calls of loads for C and Rust.
ghost use Rattle.tables.specs.Tables.{ours, slot_of};
ghost use Rattle.packing.specs.Loads.{ReturnsBlock};

use packing::loads;
use tables::Standard;

// Draws the block of a load from a state. The next block is this call with the state after.
#[unsafe(no_mangle)]
pub extern "C" fn rm_load_block(profile: usize, state: u32, wrong: usize, word: &mut [u8]) -> u64
    ensures { ReturnsBlock (slot_of ours profile) state wrong word.old word.new result }
{
    let next = load::next_block(&Standard, profile, state, wrong, word);
    loads::pack_next(next)
}
