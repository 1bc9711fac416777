// The call of the tally for C.
#![tactic(auto)]

ghost use Rattle.std.specs.Prelude.{◌≡◌};
ghost use Rattle.tally.specs.Counts.{tallied};

use tally::Tally;

// Counts one more answer in the tally that the receive loop lends.
#[unsafe(no_mangle)]
pub extern "C" fn count_answer(t: &mut Tally, answer: usize)
    ensures { t.new ≡ tallied answer t.old }
{
    tally::count_answer(t, answer)
}
