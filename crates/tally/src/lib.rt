// A tally of answers by number.
#![tactic(auto)]

ghost use Rattle.std.specs.Prelude.{◌≡◌, length};
ghost use Rattle.tally.specs.Counts.{tallied};

// A count for each of the answers 0 to 31.
#[repr(C)]
#[derive(Clone, Copy, Debug, PartialEq, Eq)]
pub struct Tally {
    pub counts: [u32; 32],
}

// The tally after one more answer.
pub fn counted(t: Tally, answer: usize) -> Tally
    ensures { result ≡ tallied answer t }
{
    let mut next = t;
    if answer < 32 {
        let n = next.counts[answer];
        if n < 4294967295 {
            next.counts[answer] = n + 1;
        }
    }
    next
}

// Counts one more answer in the tally that the receive loop lends.
pub fn count_answer(t: &mut Tally, answer: usize)
    ensures { t.new ≡ tallied answer t.old }
{
    *t = counted(*t, answer);
}

// The tally of 32 counts.
pub fn of_counts(counts: &[u32]) -> Tally
    requires { length counts.now ≡ 32 }
    ensures { result.counts ≡ counts.now }
{
    let mut own = [0u32; 32];
    own.copy_from_slice(counts);
    Tally { counts: own }
}

// Writes a tally's counts.
pub fn put(t: Tally, counts: &mut [u32])
    requires { length counts.old ≡ 32 }
    ensures { counts.new ≡ t.counts }
{
    counts.copy_from_slice(&t.counts);
}
