// A walk along a street: its steps, each shown as it is made, until no meter is left to send.
#![tactic(auto)]

ghost use Rattle.std.specs.Prelude.{◌≡◌, false, ◌^◌, ◌≤◌, length};
ghost use Rattle.std.specs.Io.KnownBytes.{Appends};
ghost use Rattle.tables.specs.Tables.{held, ours, slot_of};
ghost use Rattle.streets.specs.State.{shows};
ghost use Rattle.street_report.specs.Report.{step_line, step_of};
ghost use Rattle.walks.specs.Walk.{Ended, Lent, Onward, Walked, line_of, plan_of};

use refusals::Refusal;
use std::io::Write;
use street_report::Counts;
use street_settings::Settings;
use streets::{Fate, Plan, Street};
use tables::{Profiles, Standard};
use turns::{Stream, sent};

// The street, and what was counted on the way.
#[derive(Clone, Copy)]
pub struct Walk {
    pub street: Street,
    pub counts: Counts,
}

// Why the settings are refused, and the walk before its first step.
#[derive(Clone, Copy)]
pub struct Stopped {
    pub why: Refusal,
    pub walk: Walk,
}

// Prints the line of a step.
fn show<W: Write>(to: &mut Stream<W>, meter: usize, attempt: usize, fate: Fate)
    ensures shown { to.new.failed ≡ false → Appends (W.contents to.old.inner) (W.contents to.new.inner) (step_line (step_of meter attempt fate)) }
    ensures failing { to.new.failed ≡ false → to.old.failed ≡ false }
{
    let mut out = [0u8; 54];
    let n = street_report::step_line(meter, attempt, fate, &mut out);
    sent(to, &out[..n]);
}

// One step, its line where lines are asked for, and its counts; None where no meter is left to send.
fn step<W: Write>(
    s: Settings,
    w: Walk,
    to: &mut Stream<W>,
    block: &mut [u8],
    area: &mut [i32],
) -> Result<Option<Walk>, Refusal>
    ensures onward { Onward (slot_of ours s.profile) (plan_of s) w result (shows (slot_of ours s.profile) (plan_of s) w.street (length block.old) (length area.old)) }
    ensures shown { to.new.failed ≡ false → Appends (W.contents to.old.inner) (W.contents to.new.inner) (line_of s.summary (shows (slot_of ours s.profile) (plan_of s) w.street (length block.old) (length area.old))) }
    ensures failing { to.new.failed ≡ false → to.old.failed ≡ false }
{
    let plan = Plan {
        wrong: s.wrong,
        meters: s.meters,
        retries: s.retries,
    };
    let stepped = streets::step(&Standard, s.profile, plan, w.street, block, area);
    let street = stepped.street;
    let shown = stepped.shown?;
    match shown {
        Some(block_sent) => {
            let meter = block_sent.meter;
            let attempt = block_sent.turn;
            let fate = block_sent.fate;
            if !s.summary {
                show(to, meter, attempt, fate);
            }
            Ok(Some(Walk {
                street,
                counts: street_report::counted(w.counts, s.retries, attempt, fate),
            }))
        }
        None => Ok(None),
    }
}

// From the start until no meter is left to send: 256 meters send at most 16 times, and one step more says that none is left. None where the
// turns do not suffice.
fn walk_in<W: Write>(
    s: Settings,
    to: &mut Stream<W>,
    block: &mut [u8],
    area: &mut [i32],
) -> Result<Option<Walk>, Stopped>
    requires { Lent (slot_of ours s.profile) (length block.old) (length area.old) }
    ensures { Ended (slot_of ours s.profile) (plan_of s) s.start result }
{
    let mut w = Walk {
        street: streets::begin(s.start),
        counts: street_report::no_counts(),
    };
    for _ in 0..4097usize {
        match step(s, w, to, block, area) {
            Ok(Some(more)) => w = more,
            Ok(None) => return Ok(Some(w)),
            Err(why) => return Err(Stopped { why, walk: w }),
        }
    }
    Ok(None)
}

// The places of a block of the profile.
fn places(profile: usize) -> usize
    ensures { (result ≡ 2 ^ (held (slot_of ours profile)).m) × (result ≤ 1024) }
{
    match Standard.look(profile) {
        Some(entry) => words::size(entry.m),
        None => 1,
    }
}

// A walk with buffers of its own, to its end unless the settings are refused.
pub fn walk_street<W: Write>(s: Settings, to: &mut Stream<W>) -> Result<Walk, Stopped>
    ensures { Walked (slot_of ours s.profile) (plan_of s) s.start result }
{
    let n = places(s.profile);
    let mut block = [0u8; 1024];
    let mut area = [0i32; 8192];
    let walk = walk_in(s, to, &mut block[..n], &mut area)?;
    Ok(walk.unwrap())
}
