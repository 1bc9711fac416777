// A call's answer from its reading's: the places mended, and the place of a refusal.
ghost use Rattle.std.specs.Prelude.{◌≡◌, ◌≤◌};
ghost use Rattle.words.specs.Word.{IsWord, distance};
ghost use Rattle.hadamard.specs.Correlation.{constant_of};
ghost use Rattle.rule.specs.Calls.{values_of, decoded_place};
ghost use Rattle.delivery.specs.Delivery.{values_in};
ghost use Rattle.confidences.specs.Confidences.{signs_of};
ghost use Rattle.confidences.specs.Blocks.{IsBlock};
ghost use Rattle.confidence_decoder.specs.Runs.{Accepts, place_told};

use delivery::refusal_of;
use refusals::{Accepted, Refused};
use value_orders::ends::Ended;

// The bit that a confidence was received as: 0 counts as bit 0.
fn bit_of(x: i16) -> u16
    ensures { result ≡ constant_of x }
{
    u16::from(x < 0)
}

// The places where the word differs from the one received, counted in numbers as wide as the values: eight go together. The loop ends by the
// length: of p < n, n a power of 2, the compiler makes a shift in every turn.
fn mended(m: usize, values: &[i16], word: &[u8]) -> usize
    requires { (m ≤ 10) × IsBlock m values.now × IsWord m word.now }
    ensures { result ≡ distance m (signs_of m values.now) word.now }
{
    let mut d = 0u16;
    for (p, w) in word.iter().enumerate() {
        d += bit_of(values[p]) ^ u16::from(*w);
    }
    usize::from(d)
}

// The answer of a call that passed its checks.
pub fn answered(ended: Ended, m: usize, values: &[i16], out: &[u8]) -> Result<Accepted, Refused>
    requires { (m ≤ 10) × IsBlock m values.now × Accepts m out.now ended.answer }
    ensures values { values_of result ≡ values_in m (signs_of m values.now) out.now ended.answer }
    ensures place { decoded_place result ≡ place_told ended.place ended.answer }
{
    match ended.answer {
        Ok(read) => Ok(Accepted {
            rounds: read.rounds,
            leaves: read.leaves,
            mended: mended(m, values, out),
        }),
        Err(unread) => Err(Refused {
            why: refusal_of(unread.why, ended.place),
            rounds: unread.rounds,
            leaves: unread.leaves,
        }),
    }
}
