// Document 01, "Profiles".
#![tactic(auto)]

ghost use Rattle.std.specs.Prelude.{◌≡◌, ◌<◌};
ghost use Rattle.profiles.specs.Profiles;
ghost use Rattle.profiles.specs.Profiles.{profile_of};

// A code with the limits of its decoding.
#[derive(Clone, Copy, Debug, PartialEq, Eq)]
pub struct Profile {
    pub m: usize,
    pub r: usize,
    pub rounds: usize,
    pub leaves: usize,
}

fn row(m: usize, r: usize, rounds: usize, leaves: usize) -> Profile
    ensures { result ≡ Rattle.profiles.specs.Profiles.row m r rounds leaves }
{
    Profile {
        m,
        r,
        rounds,
        leaves,
    }
}

// The profile of that number. Cases, not a table: a table the compiler would write to the stack in every call.
pub fn by_number(number: usize) -> Profile
    requires { number < 5 }
    ensures { result ≡ profile_of number }
{
    match number {
        0 => row(5, 1, 4, 1),
        1 => row(6, 2, 4, 252),
        2 => row(7, 2, 4, 508),
        3 => row(8, 2, 4, 1020),
        _ => row(8, 3, 4, 518160),
    }
}
