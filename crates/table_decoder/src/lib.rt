// The decoder under a table of profiles.
#![tactic(auto)]

ghost use Rattle.std.specs.Prelude.{length};
ghost use Rattle.rule.specs.Calls.{Decodes};
ghost use Rattle.tables.specs.Tables.{entry_of};
ghost use Rattle.table_decoder.specs.Table.{decode_table_call};

use refusals::{Accepted, Refusal, Refused};
use tables::Profiles;

// Decodes a block under the limits of an entry of a table, or of document 01's.
pub fn decode_table<P: Profiles>(
    profiles: &P,
    number: usize,
    word: &[u8],
    out: &mut [u8],
    area: &mut [i32],
) -> Result<Accepted, Refused>
    ensures { Decodes (entry_of (P.table profiles.now) number).m (decode_table_call (P.table profiles.now) number word.now (length out.old) (length area.old)) word.now out.old out.new area.old area.new result }
{
    let p = profiles.look(number).ok_or(Refusal::Profile)?;
    decoder::decode(p.m, p.r, p.rounds, p.leaves, word, out, area)
}
