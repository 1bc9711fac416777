// Two calls that undo one another: a message encoded and read, a codeword read and encoded.
#![tactic(auto)]

ghost use Rattle.code.specs.Code.{IsCodeword, codeword, message_of};
ghost use Rattle.round_trip.specs.RoundTrip.{Back, Fit, IsMessage};

use refusals::{Both, Refusal};

// The codeword of a message, and the message of that.
pub fn encode_and_read(
    m: usize,
    r: usize,
    message: &[u8],
    word: &mut [u8],
    back: &mut [u8],
) -> Both<Result<(), Refusal>>
    ensures { IsMessage m r message.now → Fit m r word.old back.old → Back (codeword m r message.now) message.now word.new back.new result.first result.second }
{
    let first = codec::encode(m, r, message, word);
    let second = codec::read_message(m, r, word, back);
    Both { first, second }
}

// The message of a codeword, and the codeword of that.
pub fn read_and_encode(
    m: usize,
    r: usize,
    word: &[u8],
    message: &mut [u8],
    back: &mut [u8],
) -> Both<Result<(), Refusal>>
    ensures { IsCodeword m r word.now → Fit m r back.old message.old → Back (message_of m r word.now) word.now message.new back.new result.first result.second }
{
    let first = codec::read_message(m, r, word, message);
    let second = codec::encode(m, r, message, back);
    Both { first, second }
}
