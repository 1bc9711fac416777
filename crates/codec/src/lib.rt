// Reed-Muller codes: the encoder, the message reader and the codeword test.
#![tactic(auto)]

ghost use Rattle.codec.specs.Calls.{Encodes, Reads, Tests};

use codec_checks::{check_codeword, check_message, check_word};
use halving_test::has_order;
use messages::{degrees, spread};
use reader::read_in;
use refusals::Refusal;

// The codeword of a message.
pub fn encode(m: usize, r: usize, message: &[u8], out: &mut [u8]) -> Result<(), Refusal>
    ensures { Encodes m r message.now out.old out.new result }
{
    check_message(m, r, message, out.len())?;
    let mut d = [0u8; 1024];
    degrees(&mut d, out.len());
    spread(r, &d, message, out);
    coefficients::transform(out, m);
    Ok(())
}

// The message of a codeword.
pub fn read_message(m: usize, r: usize, word: &[u8], out: &mut [u8]) -> Result<(), Refusal>
    ensures { Reads m r word.now out.old out.new result }
{
    check_codeword(m, r, word, out.len())?;
    let n = words::size(m);
    let mut t = [0u8; 1024];
    if read_in(m, r, word, &mut t[0..n], out) {
        Ok(())
    } else {
        Err(Refusal::NotCodeword)
    }
}

// Whether a word is a codeword, by source 000's steps.
pub fn is_codeword(m: usize, r: usize, word: &[u8]) -> Result<bool, Refusal>
    ensures { Tests m r word.now result }
{
    check_word(m, r, word)?;
    let n = words::size(m);
    let mut t = [0u8; 1024];
    Ok(has_order(m, r, word, &mut t[0..n]))
}
