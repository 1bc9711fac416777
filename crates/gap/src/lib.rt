// How far a block of order 1 is from another answer: the gap between the greatest and the second absolute correlation.
#![tactic(auto)]

ghost use Rattle.std.specs.Prelude.{true, ◌≡◌, ◌≤◌, length, pos};
ghost use Rattle.words.specs.Word.{IsWord, bit};
ghost use Rattle.words.specs.Written.{Written};
ghost use Rattle.refusals.specs.Refusals.{Checked};
ghost use Rattle.code.specs.Code.{IsCodeword};
ghost use Rattle.hadamard.specs.Correlation.{sign};
ghost use Rattle.gap.specs.Gap.{gap_of};
ghost use Rattle.gap.specs.Calls.{Measures, gap_checks};
ghost use Rattle.gap.specs.Measuring.{Fits};

use refusals::Refusal;

mod pairs;

// 1, 5, 7 and 8: the decoder's checks at order 1, with room for the output.
fn check(m: usize, word: &[u8], area: usize) -> Result<(), Refusal>
    ensures { Checked (gap_checks m word.now area) word.now result }
{
    code_checks::check_code(m, 1)?;
    let n = words::size(m);
    checks::buffers(m, word, n, area)
}

// Puts +1 for each bit 0 and -1 for each bit 1.
fn signs(word: &[u8], part: &mut [i32])
    requires { length word.now ≤ length part.old }
    ensures { Written (pos 0) 0 (length word.now) (λ p. sign (bit word.now p)) part.old part.new }
{
    for (i, w) in word.iter().enumerate() {
        part[i] = if *w == 0 { 1 } else { -1 };
    }
}

// Whether the word is a codeword; one of fewer than eight places is not looked at.
fn known_codeword(m: usize, word: &[u8]) -> bool
    requires { (m ≤ 10) × IsWord m word.now }
    ensures { result ≡ true → IsCodeword m 1 word.now }
{
    if m < 3 {
        return false;
    }
    block_test::is_affine(m, word)
}

// The gap of a word that passed the checks, by way of the first n numbers of the area. A codeword's is n and needs no correlations.
fn measure(m: usize, word: &[u8], part: &mut [i32]) -> usize
    requires { Fits m word.now part.old }
    ensures { result ≡ gap_of m word.now }
{
    if known_codeword(m, word) {
        return part.len();
    }
    signs(word, part);
    correlations::correlate_halves(part, m - 1);
    pairs::widest(part.len() / 2, part)
}

// The gap of a block at order 1.
pub fn gap(m: usize, word: &[u8], area: &mut [i32]) -> Result<usize, Refusal>
    ensures { Measures m word.now area.old area.new result }
{
    check(m, word, area.len())?;
    let n = words::size(m);
    let g = measure(m, word, &mut area[0..n]);
    area::fill(area, 0);
    Ok(g)
}
