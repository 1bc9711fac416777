// What calls answer, and why they are refused.
#![tactic(auto)]

ghost use Rattle.std.specs.Prelude.{◌≡◌};
ghost use Rattle.refusals.specs.Refusals.{number_of, place_of};

// Document 01, "Refusals by who causes them", and those of document 02, in the order of their numbers.
#[derive(Clone, Copy, Debug, PartialEq, Eq)]
pub enum Refusal {
    Exponent,
    Order,
    RoundLimit,
    LeafLimit,
    InputLength,
    OutputLength,
    AreaLength,
    // A place that holds a byte above 1.
    BadByte(usize),
    Tie,
    Flipping,
    Unsettled,
    TooManyLeaves,
    NotCodeword,
    Profile,
    Header,
    Truncated,
    // 17 and 18: a place whose value is 0 at the end, and one that holds no confidence.
    Erased(usize),
    OutOfRange(usize),
    // 19, and 20 with the entry.
    TableFile,
    TableEntry(usize),
    // 21 and 22: a load's state of 0, and more wrong places than the block has.
    LoadStart,
    WrongPlaces,
    // 23 and 24: a street's meters and its retry limit.
    Meters,
    Retries,
    // 25 and 26: tallies by name.
    UnknownName,
    NamesFull,
    // 27 and 28: an array's exponent, and an array that ends with a row or column that is no codeword.
    ArrayExponent,
    NotArray,
}

// What a decoding that accepts tells: its rounds, its leaf count and the places that it mended.
#[derive(Clone, Copy, Debug, PartialEq, Eq)]
pub struct Accepted {
    pub rounds: usize,
    pub leaves: usize,
    pub mended: usize,
}

// What a decoding that refuses tells: why, its rounds and its leaf count.
#[derive(Clone, Copy, Debug, PartialEq, Eq)]
pub struct Refused {
    pub why: Refusal,
    pub rounds: usize,
    pub leaves: usize,
}

// "Rounds and leaf count returned: 0 and 0 for 1 to 8 and 14": a refusal before any reading.
impl From<Refusal> for Refused {
    ghost from_gives = { λ w e. e ≡ record { why = w; rounds = 0; leaves = 0 } };

    fn from(why: Refusal) -> Refused {
        Refused {
            why,
            rounds: 0,
            leaves: 0,
        }
    }
}

// What two calls answer, of which one contract speaks.
#[derive(Clone, Copy, Debug, PartialEq, Eq)]
pub struct Both<T> {
    pub first: T,
    pub second: T,
}

// The document's number of a refusal.
pub fn number(why: Refusal) -> u8
    ensures { result ≡ number_of why }
{
    match why {
        Refusal::Exponent => 1,
        Refusal::Order => 2,
        Refusal::RoundLimit => 3,
        Refusal::LeafLimit => 4,
        Refusal::InputLength => 5,
        Refusal::OutputLength => 6,
        Refusal::AreaLength => 7,
        Refusal::BadByte(_) => 8,
        Refusal::Tie => 9,
        Refusal::Flipping => 10,
        Refusal::Unsettled => 11,
        Refusal::TooManyLeaves => 12,
        Refusal::NotCodeword => 13,
        Refusal::Profile => 14,
        Refusal::Header => 15,
        Refusal::Truncated => 16,
        Refusal::Erased(_) => 17,
        Refusal::OutOfRange(_) => 18,
        Refusal::TableFile => 19,
        Refusal::TableEntry(_) => 20,
        Refusal::LoadStart => 21,
        Refusal::WrongPlaces => 22,
        Refusal::Meters => 23,
        Refusal::Retries => 24,
        Refusal::UnknownName => 25,
        Refusal::NamesFull => 26,
        Refusal::ArrayExponent => 27,
        Refusal::NotArray => 28,
    }
}

// The place that a refusal names (20: the entry), 0 where it names none.
pub fn place(why: Refusal) -> usize
    ensures { result ≡ place_of why }
{
    match why {
        Refusal::BadByte(p)
        | Refusal::Erased(p)
        | Refusal::OutOfRange(p)
        | Refusal::TableEntry(p) => p,
        _ => 0,
    }
}
