// The calls under tables of profiles, document 02's request 4, for C and Rust.
ghost use Rattle.std.specs.Prelude.{◌≡◌, length};
ghost use Rattle.profiles.specs.Profiles.{row};
ghost use Rattle.tables.specs.Tables.{entry_of, ours};
ghost use Rattle.table_files.specs.File.{loaded};
ghost use Rattle.table_decoder.specs.Table.{decode_table_call};
ghost use Rattle.packing.specs.Packing.{ReturnsDecoded};
ghost use Rattle.packing.specs.ByTable.{ReturnsLoaded, ReturnsRecord, made, table_of};

use packing::by_table;
use profiles::Profile;
use tables::{Standard, Table};

// Under an entry of the table of a file.
#[unsafe(no_mangle)]
pub extern "C" fn rm_decode_table(
    file: &[u8],
    number: usize,
    word: &[u8],
    out: &mut [u8],
    area: &mut [i32],
) -> u64
    ensures { ReturnsLoaded (loaded file.now ours) number word.now out.old area.old out.new area.new result }
{
    let l = table_files::load(file, tables::ours());
    let answer = l.answer;
    if by_table::pack_number(answer) != 0 {
        return packing::pack_answer(answer);
    }
    let decoded = table_decoder::decode_table(&l.table, number, word, out, area);
    packing::pack_decoded(decoded)
}

// A table that no load made.
fn made_of(count: usize, p: Profile) -> Table
    ensures { result ≡ made count p }
{
    Table {
        count,
        entries: [p; 32],
    }
}

// Under a table whose count is as given and whose 32 entries are all m, r, rounds, leaves: any numbers, none reduced.
#[unsafe(no_mangle)]
pub extern "C" fn rm_decode_made(
    count: usize,
    m: usize,
    r: usize,
    rounds: usize,
    leaves: usize,
    number: usize,
    word: &[u8],
    out: &mut [u8],
    area: &mut [i32],
) -> u64
    ensures { ReturnsDecoded (entry_of (made count (row m r rounds leaves)) number).m (decode_table_call (made count (row m r rounds leaves)) number word.now (length out.old) (length area.old)) word.now out.old out.new area.old area.new result }
{
    let p = Profile {
        m,
        r,
        rounds,
        leaves,
    };
    let answer = table_decoder::decode_table(&made_of(count, p), number, word, out, area);
    packing::pack_decoded(answer)
}

// One call of the capture reader: `rest` is the capture from a record on. Under the table of the file, document 01's where that has length 0.
#[unsafe(no_mangle)]
pub extern "C" fn rm_record(file: &[u8], rest: &[u8], word: &mut [u8]) -> u64
    ensures { ReturnsRecord (table_of file.now) rest.now word.old word.new result }
{
    if file.len() == 0 {
        return by_table::pack_found(capture::find_record(&Standard, rest, 0, word));
    }
    let l = table_files::load(file, tables::ours());
    let answer = l.answer;
    let refusal = by_table::pack_number(answer);
    if refusal != 0 {
        return refusal;
    }
    by_table::pack_found(capture::find_record(&l.table, rest, 0, word))
}
