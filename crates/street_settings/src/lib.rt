// The settings of a street, from the arguments of a program: numbers in decimal, and one word.
#![tactic(auto)]

ghost use Rattle.std.specs.Prelude.{◌≡◌, true, ◌<◌, length};
ghost use Rattle.std.specs.List.{list_all};
ghost use Rattle.street_settings.specs.Settings.{all_digits, asked, defaults, is_digit, kept32, number_in, value_of, with_number};

// What a planner tries: the profile, the wrong places asked in a block, the meters, their retries, the load's start; and whether the summary
// alone is to be printed.
#[derive(Clone, Copy, Debug, PartialEq, Eq)]
pub struct Settings {
    pub profile: usize,
    pub wrong: usize,
    pub meters: usize,
    pub retries: usize,
    pub start: u32,
    pub summary: bool,
}

// What the arguments so far ask, and how many of them were numbers.
#[derive(Clone, Copy, Debug, PartialEq, Eq)]
pub struct Asked {
    pub settings: Settings,
    pub numbers: usize,
}

// Why an argument says nothing.
#[derive(Clone, Copy, Debug, PartialEq, Eq)]
pub enum Bad {
    NotNumber,
    TooMany,
}

// Before the first argument.
pub fn begin() -> Asked
    ensures { result ≡ record { settings = defaults; numbers = 0 } }
{
    Asked {
        settings: Settings {
            profile: 1,
            wrong: 3,
            meters: 100,
            retries: 3,
            start: 1,
            summary: false,
        },
        numbers: 0,
    }
}

fn is_digit(b: u8) -> bool
    ensures { result ≡ is_digit b }
{
    if b < 48 {
        return false;
    }
    b < 58
}

fn all_digits(s: &[u8]) -> bool
    ensures { result ≡ list_all is_digit s.now }
{
    s.iter().all(|b| is_digit(*b))
}

// The number that digits say, where it is below 2^32.
fn value(s: &[u8]) -> Option<u32>
    requires { all_digits s.now ≡ true }
    ensures { result ≡ kept32 (value_of s.now (length s.now)) }
{
    let mut v = 0u32;
    for b in s {
        v = v.checked_mul(10)?.checked_add(u32::from(*b - 48))?;
    }
    Some(v)
}

fn read_number(s: &[u8]) -> Option<u32>
    ensures { result ≡ number_in s.now }
{
    if s.len() == 0 {
        return None;
    }
    if !all_digits(s) {
        return None;
    }
    value(s)
}

// The settings with this number in its place, which is how many numbers stood before it.
fn with_number(s: Settings, place: usize, v: u32) -> Settings
    requires { place < 5 }
    ensures { result ≡ with_number s place v }
{
    match place {
        0 => Settings {
            profile: v as usize,
            ..s
        },
        1 => Settings {
            wrong: v as usize,
            ..s
        },
        2 => Settings {
            meters: v as usize,
            ..s
        },
        3 => Settings {
            retries: v as usize,
            ..s
        },
        _ => Settings { start: v, ..s },
    }
}

// What the arguments ask with this one after those so far.
pub fn take(so_far: Asked, text: &[u8]) -> Result<Asked, Bad>
    ensures { result ≡ asked so_far text.now }
{
    let s = so_far.settings;
    if text == b"summary".as_slice() {
        return Ok(Asked {
            settings: Settings { summary: true, ..s },
            ..so_far
        });
    }
    let v = read_number(text).ok_or(Bad::NotNumber)?;
    if 4 < so_far.numbers {
        return Err(Bad::TooMany);
    }
    Ok(Asked {
        settings: with_number(s, so_far.numbers, v),
        numbers: so_far.numbers + 1,
    })
}
