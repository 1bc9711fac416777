// The decoder for confidences: a second decoder beside the one for bits, in a lent area of numbers.
#![tactic(auto)]

ghost use Rattle.std.specs.Prelude.{length};
ghost use Rattle.tables.specs.Tables.{entry_of};
ghost use Rattle.confidences.specs.Answers.{confidence_call, confidence_table_call, DecodesValues};

use profiles::Profile;
use refusals::{Accepted, Refusal, Refused};
use runs::run;
use tables::Profiles;

mod answers;
pub mod both;
mod runs;
mod value_checks;

// Decodes confidences under the limits given.
pub fn decode_confidences(
    m: usize,
    r: usize,
    rounds: usize,
    leaves: usize,
    values: &[i16],
    out: &mut [u8],
    area: &mut [i32],
) -> Result<Accepted, Refused>
    ensures { DecodesValues m r rounds (confidence_call m r rounds leaves values.now (length out.old) (length area.old)) values.now out.old out.new area.old area.new result }
{
    let by = Profile {
        m,
        r,
        rounds,
        leaves,
    };
    value_checks::call(by, values, out.len(), area.len())?;
    run(by, values, out, area)
}

// Decodes confidences under the limits of an entry of a table, or of document 01's.
pub fn decode_confidences_table<P: Profiles>(
    profiles: &P,
    number: usize,
    values: &[i16],
    out: &mut [u8],
    area: &mut [i32],
) -> Result<Accepted, Refused>
    ensures { DecodesValues (entry_of (P.table profiles.now) number).m (entry_of (P.table profiles.now) number).r (entry_of (P.table profiles.now) number).rounds (confidence_table_call (P.table profiles.now) number values.now (length out.old) (length area.old)) values.now out.old out.new area.old area.new result }
{
    let p = profiles.look(number).ok_or(Refusal::Profile)?;
    decode_confidences(p.m, p.r, p.rounds, p.leaves, values, out, area)
}
