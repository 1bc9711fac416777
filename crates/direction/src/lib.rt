// Directions: the highest one, and the number with a 0 inserted.
#![tactic(auto)]

ghost use Rattle.std.specs.Prelude.{◌≡◌, ◌*◌, ◌≤◌, ◌<◌};
ghost use Rattle.direction.specs.Direction.{highest, insert_zero};

// The position of b's highest one.
pub fn highest_bit(b: usize) -> usize
    requires { (0 < b) × (b < 1024) }
    ensures { (result ≡ highest b) × (result < 10) }
{
    (31 - u32::leading_zeros(b as u32)) as usize
}

// q with a 0 inserted at position h: the bits from h on count twice.
pub fn insert_zero(h: usize, q: usize) -> usize
    requires { (h ≤ 10) × (q < 1024) }
    ensures { (result ≡ insert_zero h q) × (result ≤ 2 * q) }
{
    let low = q & (words::size(h) - 1);
    q + (q - low)
}
