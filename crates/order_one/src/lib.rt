// The reading at order 1: by the peak of the word's correlations.
#![tactic(auto)]

ghost use Rattle.std.specs.Prelude.{◌≡◌, ◌*◌, ◌≤◌, ◌^◌, length};
ghost use Rattle.area.specs.Area.{Bits, word_of};
ghost use Rattle.hadamard.specs.Correlation.{values};
ghost use Rattle.rule.specs.Reading.{order1};
ghost use Rattle.told.specs.Told.{Read, Kept};

use told::{Accepted, Noise, Told, changed, refused};

// The reading at order 1 in a part of the area that holds the word and as much again, which is worked in. A word that is a codeword already
// is its own nearest one, and needs no correlations.
fn first_order_in(m: usize, part: &mut [i32]) -> Told
    requires { (1 ≤ m) × (m ≤ 10) × (length part.old ≡ 2 * 2 ^ m) × Bits (2 ^ m) part.old }
    ensures read { Read (2 ^ m) (order1 m (values (word_of (2 ^ m) part.old))) part.new result.answer }
    ensures kept { Kept (2 ^ m) part.old part.new result }
{
    let accepted = Accepted {
        rounds: 0,
        leaves: 1,
    };
    if affine_test::is_affine(m, part) {
        return Told {
            answer: Ok(accepted),
            kept: true,
        };
    }
    let n = words::size(m);
    let Some(peak) = nearest::find_peak(m, part) else {
        return refused(Noise::Tie, 0, 1);
    };
    let mask = peak.mask;
    let constant = peak.constant;
    affine::write_affine(&mut part[0..n], mask, constant);
    changed(Ok(accepted))
}

// The reading at order 1.
pub fn first_order(m: usize, area: &mut [i32]) -> Told
    requires { (1 ≤ m) × (m ≤ 10) × (2 * 2 ^ m ≤ length area.old) × Bits (2 ^ m) area.old }
    ensures read { Read (2 ^ m) (order1 m (values (word_of (2 ^ m) area.old))) area.new result.answer }
    ensures kept { Kept (2 ^ m) area.old area.new result }
{
    let n = words::size(m);
    let e = n + n;
    first_order_in(m, &mut area[0..e])
}
