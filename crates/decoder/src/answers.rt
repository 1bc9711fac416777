// A call's answer from its reading's.
ghost use Rattle.std.specs.Prelude.{◌≡◌, ◌≤◌};
ghost use Rattle.rule.specs.Calls.{values_of, decoded_place};
ghost use Rattle.delivery.specs.Delivery.{values_in};
ghost use Rattle.decoder.specs.Verdicts.{Mendable};

use delivery::refusal_of;
use refusals::{Accepted, Refused};
use told::Told;

// The answer of a call that passed its checks. A word that its reading kept has no place mended.
pub fn answered(told: Told, m: usize, word: &[u8], out: &[u8]) -> Result<Accepted, Refused>
    requires { (m ≤ 10) × Mendable m word.now out.now told }
    ensures values { values_of result ≡ values_in m word.now out.now told.answer }
    ensures place { decoded_place result ≡ 0 }
{
    match told.answer {
        Ok(read) => {
            let rounds = read.rounds;
            let leaves = read.leaves;
            if told.kept {
                return Ok(Accepted {
                    rounds,
                    leaves,
                    mended: 0,
                });
            }
            let mended = words::distance(m, word, out);
            Ok(Accepted {
                rounds,
                leaves,
                mended,
            })
        }
        Err(unread) => Err(Refused {
            why: refusal_of(unread.why, 0),
            rounds: unread.rounds,
            leaves: unread.leaves,
        }),
    }
}
