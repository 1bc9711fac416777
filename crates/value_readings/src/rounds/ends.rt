// The start and the end of a round.
ghost use Rattle.std.specs.Prelude.{suc, ◌*◌, ◌^◌, ◌≤◌, length, pos};
ghost use Rattle.words.specs.Written.{Written};
ghost use Rattle.confidences.specs.Values.{Sums};
ghost use Rattle.value_readings.specs.Polls.{new_at};

use value_orders::ends::renew;

// Clears the sums.
pub fn clear(m: usize, area: &mut [i32])
    requires { (m ≤ 9) × (8 * 2 ^ m ≤ length area.old) }
    ensures { Written (pos 0) (2 ^ suc m) (2 ^ suc m) (λ p. pos 0) area.old area.new }
{
    let n = 2 * words::size(m);
    area::fill(&mut area[n..2 * n], 0);
}

// The new values; where all abstained the old ones stay.
pub fn conclude(m: usize, abstained: usize, area: &mut [i32])
    requires { (m ≤ 9) × (8 * 2 ^ m ≤ length area.old) × Sums (2 ^ suc m) area.old }
    ensures { Written (pos 0) 0 (2 ^ suc m) (new_at m abstained area.old) area.old area.new }
{
    let n = 2 * words::size(m);
    if abstained == n - 1 {
        return;
    }
    renew(n, area);
}
