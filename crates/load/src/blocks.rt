// Blocks drawn: a codeword, and the wrong places in it.
ghost use Rattle.std.specs.Prelude.{◌≡◌, ◌^◌, length};
ghost use Rattle.words.specs.Word.{IsWord, add_words};
ghost use Rattle.code.specs.Code.{dimension};
ghost use Rattle.refusals.specs.IsCode.{IsCode};
ghost use Rattle.load.specs.Steps.{BlockDrawn, SentDrawn};

use generator::Places;

// Draws a message, in the buffer for it, and its codeword; gives the state after it.
fn draw_sent(m: usize, r: usize, state: u32, message: &mut [u8], sent: &mut [u8]) -> u32
    requires { IsCode m r × (length message.old ≡ dimension m r) × (length sent.old ≡ 2 ^ m) }
    ensures { SentDrawn m r state sent.new result }
{
    let y = generator::draw_message(state, message);
    let _ = codec::encode(m, r, message, sent);
    y
}

// Adds a word to another.
fn add(m: usize, word: &[u8], out: &mut [u8])
    requires { IsWord m word.now × IsWord m out.old }
    ensures { out.new ≡ add_words word.now out.old }
{
    for (i, x) in word.iter().enumerate() {
        out[i] ^= *x;
    }
}

// Draws a block from a state. The codeword sent is left too; the message stands in the block's buffer before the block does.
pub fn draw_block(
    m: usize,
    r: usize,
    state: u32,
    asked: usize,
    sent: &mut [u8],
    block: &mut [u8],
) -> Places
    requires { IsCode m r × (length sent.old ≡ 2 ^ m) × (length block.old ≡ 2 ^ m) }
    ensures { BlockDrawn m r asked state sent.new block.new result }
{
    let k = messages::dimension(m, r);
    let x = draw_sent(m, r, state, &mut block[0..k], sent);
    let p = generator::draw_places(m, x, asked, block);
    add(m, sent, block);
    p
}
