// The checks of the encoder, the message reader and the codeword test, in their order.
#![tactic(auto)]

ghost use Rattle.std.specs.Prelude.{◌∷◌, length, eqb};
ghost use Rattle.refusals.specs.Refusals.{Checked, check, byte_checks};
ghost use Rattle.codec_checks.specs.Checks.{encode_checks, word_checks, test_checks};

use messages::dimension;
use refusals::Refusal;

// 5, 6 and 8: an input of n bytes, an output of k.
fn check_buffers(s: &[u8], n: usize, room: usize, k: usize) -> Result<(), Refusal>
    ensures { Checked (check 5 (eqb (length s.now) n) ∷ check 6 (eqb room k) ∷ byte_checks s.now) s.now result }
{
    if s.len() != n {
        return Err(Refusal::InputLength);
    }
    if room != k {
        return Err(Refusal::OutputLength);
    }
    code_checks::check_bytes(s)
}

// The refusals of the encoder, with an output of `room` bytes.
pub fn check_message(m: usize, r: usize, message: &[u8], room: usize) -> Result<(), Refusal>
    ensures { Checked (encode_checks m r message.now room) message.now result }
{
    code_checks::check_code(m, r)?;
    let n = words::size(m);
    check_buffers(message, dimension(m, r), room, n)
}

// The refusals of the message reader but 13, with an output of `room` bytes.
pub fn check_codeword(m: usize, r: usize, word: &[u8], room: usize) -> Result<(), Refusal>
    ensures { Checked (word_checks m r word.now room) word.now result }
{
    code_checks::check_code(m, r)?;
    let n = words::size(m);
    check_buffers(word, n, room, dimension(m, r))
}

// The refusals of the codeword test.
pub fn check_word(m: usize, r: usize, word: &[u8]) -> Result<(), Refusal>
    ensures { Checked (test_checks m r word.now) word.now result }
{
    code_checks::check_code(m, r)?;
    if word.len() != words::size(m) {
        return Err(Refusal::InputLength);
    }
    code_checks::check_bytes(word)
}
