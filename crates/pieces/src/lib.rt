// What was listed of a part of a capture, and what listing it needs of no decoder: whether it is there, what was listed next, the bytes left.
#![tactic(auto)]

ghost use Rattle.std.specs.Prelude.{◌≡◌, ◌+◌, ◌-◌, ◌*◌, ◌^◌, ◌≤◌, ◌<◌, cond, ◌++◌, length, drop};
ghost use Rattle.tables.specs.Slots.{Proper};
ghost use Rattle.capture.specs.Capture.{body_length};
ghost use Rattle.pieces.specs.Steps.{Readiness};
ghost use Rattle.pieces.specs.PieceLaws.{joined as both};

use profiles::Profile;

// What was listed of a part of a capture: how many of its bytes, where the lines end in the output, how many lines there are and how
// many of them for accepted records, and whether nothing more is to be listed.
#[derive(Clone, Copy)]
pub struct Listed {
    pub consumed: usize,
    pub written: usize,
    pub records: usize,
    pub accepted: usize,
    pub ended: bool,
}

// Whether what stands at the start of the part can be listed, by what the table has at its profile, with room for a line and an area for
// the decoder.
pub fn is_ready(slot: Option<Profile>, part: &[u8], last: bool, room: usize, area: usize) -> bool
    requires { Proper slot }
    ensures { Readiness slot part.now last room area result }
{
    if room < 268 {
        return false;
    }
    let body = capture::body_length(slot, part);
    if area < 64 * body {
        return false;
    }
    if last {
        return true;
    }
    5 + body <= part.len()
}

// How many numbers of an area of that length are lent for what stands at the start of the part: all of them for the first of a call, so
// that all are zero after it, and from then on 8 × n, since clearing more would cost more than the reading.
pub fn lent(slot: Option<Profile>, part: &[u8], first: bool, area: usize) -> usize
    requires { Proper slot }
    ensures { result ≡ cond first area (64 * body_length slot part.now) }
{
    if first {
        return area;
    }
    64 * capture::body_length(slot, part)
}

// What was listed, and then what was listed next.
pub fn joined(d: Listed, e: Listed) -> Listed
    requires { (d.consumed + e.consumed < 2 ^ 64) × (d.records + e.records < 2 ^ 64) × (d.accepted + e.accepted < 2 ^ 64) }
    ensures { result ≡ both d e }
{
    Listed {
        consumed: d.consumed + e.consumed,
        written: e.written,
        records: d.records + e.records,
        accepted: d.accepted + e.accepted,
        ended: e.ended,
    }
}

// Moves the bytes from `from` on to the front.
pub fn move_down(s: &mut [u8], from: usize)
    requires { from ≤ length s.old }
    ensures { s.new ≡ drop from s.old ++ drop (length s.old - from) s.old }
{
    s.copy_within(from.., 0);
}
