// The pairs of the fast Hadamard transform.
#![tactic(auto)]

ghost use Rattle.hadamard.specs.Transform.{sums};

use transforms::Pairing;

// Sums and differences: those of the two halves come to stand in the first and in the second.
pub struct Sum;

impl Pairing<i32> for Sum {
    ghost rule = { sums };

    fn pair(x: i32, y: i32) -> (i32, i32) {
        (x + y, x - y)
    }
}
