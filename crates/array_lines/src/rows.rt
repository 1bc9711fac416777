// The rows of an array, which stand one after the other.
ghost use Rattle.std.specs.Prelude.{◌≡◌, length};
ghost use Rattle.rule.specs.Decoding.{output_of};
ghost use Rattle.rule.specs.Reading.{leaves_of};
ghost use Rattle.arrays.specs.Arrays.{line_read, row_leaves, rows_left, rows_test};
ghost use Rattle.decoder.specs.Runs.{Runs};
ghost use Rattle.array_lines.specs.Asked.{RowsAsk, TestAsks};

use decoder::runs::run;
use profiles::Profile;

// Decodes a row into `left`, which a refused one leaves as it was. The leaf count.
fn decode_row(code: Profile, row: &[u8], left: &mut [u8], area: &mut [i32]) -> usize
    requires { Runs code.m code.r code.rounds code.leaves row.now left.old area.old }
    ensures left { left.new ≡ output_of (line_read code.m code.r code.rounds code.leaves row.now) left.old }
    ensures leaves { result ≡ leaves_of (line_read code.m code.r code.rounds code.leaves row.now) }
{
    let answer = run(code.m, code.r, code.rounds, code.leaves, row, left, area);
    match answer {
        Ok(read) => read.leaves,
        Err(refused) => refused.leaves,
    }
}

// Decodes each row of the block into its place of the array, a copy of the block. The sum of the leaf counts.
pub fn decode_rows(
    mr: usize,
    mc: usize,
    r: usize,
    rounds: usize,
    leaves: usize,
    word: &[u8],
    grid: &mut [u8],
    area: &mut [i32],
) -> usize
    requires { RowsAsk mr mc r rounds leaves word.now grid.old (length area.old) }
    ensures array { grid.new ≡ rows_left mr mc r rounds leaves word.now }
    ensures leaves { result ≡ row_leaves mr mc r rounds leaves word.now }
{
    let code = Profile {
        m: mr,
        r,
        rounds,
        leaves,
    };
    let n = words::size(mr);
    let mut sum = 0;
    // By index: a row stands at the same place of both buffers.
    for i in 0..words::size(mc) {
        let a = i * n;
        let e = a + n;
        sum += decode_row(code, &word[a..e], &mut grid[a..e], area);
    }
    sum
}

// Whether every row is a codeword.
pub fn are_codewords(mr: usize, mc: usize, r: usize, grid: &[u8]) -> bool
    requires { TestAsks mr mc r grid.now }
    ensures { result ≡ rows_test mr mc r grid.now }
{
    let n = words::size(mr);
    let mut t = [0u8; 64];
    // Counted in rows, of n places each.
    for i in 0..words::size(mc) {
        let a = i * n;
        let e = a + n;
        if !halving_test::has_order(mr, r, &grid[a..e], &mut t[0..n]) {
            return false;
        }
    }
    true
}
