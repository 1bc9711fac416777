// Blocks in rows and columns, decoded: document 02, request 12.
#![tactic(auto)]

ghost use Rattle.std.specs.Prelude.{Ok, Err, ◌≡◌, cond, length};
ghost use Rattle.arrays.specs.Arrays.{array_call, array_read};
ghost use Rattle.array_decoder.specs.Calls.{DecodesArray};
ghost use Rattle.array_decoder.specs.Asked.{CallAsks, LinesAsk, LinesRead};

use array_lines::columns::{Read, decode_columns};
use array_lines::rows::{are_codewords, decode_rows};
use refusals::Refusal;

pub mod both;
mod sides;

// The codes of an array's rows and of its columns, and the limits of decoding a line.
#[derive(Clone, Copy)]
struct Codes {
    mr: usize,
    rr: usize,
    mc: usize,
    rc: usize,
    rounds: usize,
    leaves: usize,
}

// What a call on an array that refuses tells: why, and the summed leaf count. One that accepts tells that sum.
#[derive(Clone, Copy)]
pub struct ArrayRefused {
    pub why: Refusal,
    pub leaves: usize,
}

// A refusal before any line was read.
impl From<Refusal> for ArrayRefused {
    ghost from_gives = { λ w e. e ≡ record { why = w; leaves = 0 } };

    fn from(why: Refusal) -> ArrayRefused {
        ArrayRefused { why, leaves: 0 }
    }
}

// The array to the output where it is accepted, and the answer.
fn deliver(
    accepted: bool,
    leaves: usize,
    grid: &[u8],
    out: &mut [u8],
) -> Result<usize, ArrayRefused>
    requires { length grid.now ≡ length out.old }
    ensures answer { result ≡ cond accepted (Ok leaves) (Err record { why = Refusal.NotArray; leaves = leaves }) }
    ensures output { out.new ≡ cond accepted grid.now out.old }
{
    if accepted {
        words::copy(grid, out);
        return Ok(leaves);
    }
    Err(ArrayRefused {
        why: Refusal::NotArray,
        leaves,
    })
}

// The rows, then the columns: what is left of the block stands in `grid`, which holds a copy of it. The leaf sum, and whether every column is
// now a codeword.
fn decode_lines(codes: Codes, word: &[u8], grid: &mut [u8], area: &mut [i32]) -> Read
    requires { LinesAsk codes.mr codes.rr codes.mc codes.rc codes.rounds codes.leaves word.now grid.old (length area.old) }
    ensures { LinesRead codes.mr codes.rr codes.mc codes.rc codes.rounds codes.leaves word.now grid.new result }
{
    let Codes {
        mr,
        rr,
        mc,
        rc,
        rounds,
        leaves,
    } = codes;
    let a = 8 * words::size(mr);
    let b = 8 * words::size(mc);
    let rows = decode_rows(mr, mc, rr, rounds, leaves, word, grid, &mut area[0..a]);
    let columns = decode_columns(mr, mc, rc, rounds, leaves, grid, &mut area[0..b]);
    Read {
        leaves: rows + columns.leaves,
        codewords: columns.codewords,
    }
}

// A call that passed its checks, with the array in work in `grid`.
fn read(
    codes: Codes,
    word: &[u8],
    grid: &mut [u8],
    out: &mut [u8],
    area: &mut [i32],
) -> Result<usize, ArrayRefused>
    requires { CallAsks codes.mr codes.rr codes.mc codes.rc codes.rounds codes.leaves word.now (length grid.old) (length out.old) (length area.old) }
    ensures { DecodesArray (array_read codes.mr codes.rr codes.mc codes.rc codes.rounds codes.leaves word.now) word.now out.old out.new area.old area.new result }
{
    words::copy(word, grid);
    let lines = decode_lines(codes, word, grid, area);
    area::fill(area, 0);
    let rows = are_codewords(codes.mr, codes.mc, codes.rr, grid);
    deliver(rows & lines.codewords, lines.leaves, grid, out)
}

// Decodes a block in rows and columns: the exponent and the order of the row code, then of the column code.
pub fn decode_array(
    mr: usize,
    rr: usize,
    mc: usize,
    rc: usize,
    rounds: usize,
    leaves: usize,
    word: &[u8],
    out: &mut [u8],
    area: &mut [i32],
) -> Result<usize, ArrayRefused>
    ensures { DecodesArray (array_call mr rr mc rc rounds leaves word.now (length out.old) (length area.old)) word.now out.old out.new area.old area.new result }
{
    let codes = Codes {
        mr,
        rr,
        mc,
        rc,
        rounds,
        leaves,
    };
    sides::check_array(codes, word, out.len(), area.len())?;
    let n = word.len();
    let mut grid = [0u8; 4096];
    read(codes, word, &mut grid[0..n], out, area)
}
