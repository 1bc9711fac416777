// What a reading tells: its answer, and whether it kept its word.
#![tactic(auto)]

ghost use Rattle.std.specs.Prelude.{false, ◌≡◌};
ghost use Rattle.told.specs.Told.{as_refused};

// Document 01, "The noise": why a reading gives no word. Of document 02's confidences, that one of them ended as 0.
#[derive(Clone, Copy, Debug, PartialEq, Eq)]
pub enum Noise {
    Tie,
    Flipping,
    Unsettled,
    TooManyLeaves,
    Erased,
}

// What a reading that gives a word answers.
#[derive(Clone, Copy, Debug, PartialEq, Eq)]
pub struct Accepted {
    pub rounds: usize,
    pub leaves: usize,
}

// What a reading that gives no word answers.
#[derive(Clone, Copy, Debug, PartialEq, Eq)]
pub struct Unread {
    pub why: Noise,
    pub rounds: usize,
    pub leaves: usize,
}

// What a reading tells the round that started it: its answer, and whether its decoded word is the word it was given.
#[derive(Clone, Copy, Debug, PartialEq, Eq)]
pub struct Told {
    pub answer: Result<Accepted, Unread>,
    // Beside the answer, no Option: no value depends on it.
    pub kept: bool,
}

// An answer that says nothing of the word given.
pub fn changed(answer: Result<Accepted, Unread>) -> Told
    ensures { (result.answer ≡ answer) × (result.kept ≡ false) }
{
    Told {
        answer,
        kept: false,
    }
}

// A reading that gives no word, and says nothing of the word given.
pub fn refused(why: Noise, rounds: usize, leaves: usize) -> Told
    ensures { (result.answer ≡ as_refused why rounds leaves) × (result.kept ≡ false) }
{
    changed(Err(Unread {
        why,
        rounds,
        leaves,
    }))
}
