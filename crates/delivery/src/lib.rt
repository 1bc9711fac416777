// What a reading tells, handed to the caller: the decoded word to the output, and the refusal.
#![tactic(auto)]

ghost use Rattle.std.specs.Prelude.{◌≡◌, length};
ghost use Rattle.refusals.specs.Refusals.{number_of, place_of};
ghost use Rattle.told.specs.Told.{noise_number};
ghost use Rattle.delivery.specs.Delivery.{Deliverable, delivered, noise_place};

use refusals::Refusal;
use told::{Accepted, Noise, Unread};

// The decoded word, where there is one, to the output.
pub fn deliver(answer: Result<Accepted, Unread>, area: &[i32], out: &mut [u8])
    requires { Deliverable (length out.old) answer area.now }
    ensures { out.new ≡ delivered answer out.old area.now }
{
    if answer.is_ok() {
        area::store(area, out);
    }
}

// The refusal of a call whose reading gives no word, with the place where a value ended as 0. No `From`: the place is not part of the noise.
pub fn refusal_of(noise: Noise, place: usize) -> Refusal
    ensures { (number_of result ≡ noise_number noise) × (place_of result ≡ noise_place place noise) }
{
    match noise {
        Noise::Tie => Refusal::Tie,
        Noise::Flipping => Refusal::Flipping,
        Noise::Unsettled => Refusal::Unsettled,
        Noise::TooManyLeaves => Refusal::TooManyLeaves,
        Noise::Erased => Refusal::Erased(place),
    }
}
