// Blocks drawn, decoded and compared with what was sent.
ghost use Rattle.std.specs.Prelude.{◌≡◌, ◌≤◌};
ghost use Rattle.words.specs.Word.{IsWord};
ghost use Rattle.streets.specs.Sends.{Sendable, SendableIn, Sends, judged_by};
ghost use Rattle.streets.specs.State.{answered};

use crate::Fate;
use load::blocks::draw_block;
use profiles::Profile;
use refusals::{Accepted, Refused};

// What became of a block, and the load's state after it.
#[derive(Clone, Copy)]
pub struct Sending {
    pub fate: Fate,
    pub state: u32,
}

// What the decoder's answer and the word that it gave say, with the codeword sent.
fn judge(m: usize, decoded: Result<Accepted, Refused>, sent: &[u8], got: &[u8]) -> Fate
    requires { (m ≤ 10) × IsWord m sent.now × IsWord m got.now }
    ensures { answered result ≡ judged_by m sent.now got.now decoded }
{
    match decoded {
        Ok(_) => {
            if words::distance(m, sent, got) == 0 {
                Fate::Right
            } else {
                Fate::Other
            }
        }
        Err(refused) => Fate::Refused(refused.why),
    }
}

// Draws the next block and decodes it, with buffers for the codeword sent and for the word that is given.
fn send_in(
    p: Profile,
    wrong: usize,
    state: u32,
    sent: &mut [u8],
    got: &mut [u8],
    block: &mut [u8],
    area: &mut [i32],
) -> Sending
    requires { SendableIn p sent.old got.old block.old area.old }
    ensures { Sends p wrong state block.new area.old area.new result }
{
    let drawn = draw_block(p.m, p.r, state, wrong, sent, block);
    let decoded = decoder::decode(p.m, p.r, p.rounds, p.leaves, block, got, area);
    Sending {
        fate: judge(p.m, decoded, sent, got),
        state: drawn.state,
    }
}

// The same with buffers of its own: the decoded word is the street's.
pub fn send(p: Profile, wrong: usize, state: u32, block: &mut [u8], area: &mut [i32]) -> Sending
    requires { Sendable p block.old area.old }
    ensures { Sends p wrong state block.new area.old area.new result }
{
    let n = block.len();
    let mut sent = [0u8; 1024];
    let mut got = [0u8; 1024];
    send_in(
        p,
        wrong,
        state,
        &mut sent[0..n],
        &mut got[0..n],
        block,
        area,
    )
}
