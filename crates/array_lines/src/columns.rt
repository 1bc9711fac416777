// The columns of an array, whose places stand a row apart.
ghost use Rattle.std.specs.Prelude.{◌≡◌, ◌&&◌, ◌+◌, ◌*◌, ◌^◌, ◌≤◌, ◌<◌, length};
ghost use Rattle.words.specs.Sum.{tabulate};
ghost use Rattle.words.specs.Word.{IsWord, bit};
ghost use Rattle.code.specs.TestSteps.{steps_test};
ghost use Rattle.array_lines.specs.Asked.{ColumnAsks, ColumnRead, ColumnsAsk, ColumnsRead, Inside, PutAsks};
ghost use Rattle.array_lines.specs.Scattered.{Scattered};

use decoder::runs::run;
use profiles::Profile;

// The bytes of column j to line: rows have a places.
fn gather(grid: &[u8], j: usize, a: usize, line: &mut [u8])
    requires { Inside j a (length line.old) (length grid.now) }
    ensures { line.new ≡ tabulate (length line.old) (λ i. bit grid.now (i * a + j)) }
{
    // By index: the places of a column stand a row apart.
    for i in 0..line.len() {
        line[i] = grid[i * a + j];
    }
}

// The bytes of line to column j.
fn scatter(line: &[u8], j: usize, a: usize, grid: &mut [u8])
    requires { Inside j a (length line.now) (length grid.old) × (0 < a) }
    ensures { Scattered line.now j a (length line.now) grid.old grid.new }
{
    for (i, x) in line.iter().enumerate() {
        grid[i * a + j] = *x;
    }
}

// The same, where the column is not the same already.
fn put(mended: usize, line: &[u8], j: usize, a: usize, grid: &mut [u8])
    requires { PutAsks mended line.now j a grid.old }
    ensures { Scattered line.now j a (length line.now) grid.old grid.new }
{
    if mended == 0 {
        return;
    }
    scatter(line, j, a, grid);
}

// Whether a column is a codeword, where that is still asked.
fn test(sound: bool, m: usize, r: usize, line: &[u8], t: &mut [u8]) -> bool
    requires { (m ≤ 10) × (r ≤ m) × IsWord m line.now × (length t.old ≡ 2 ^ m) }
    ensures { result ≡ (sound && steps_test m r line.now) }
{
    if !sound {
        return false;
    }
    halving_test::has_order(m, r, line, t)
}

// What reading columns tells: the leaf count, and whether all of them are now codewords.
#[derive(Clone, Copy, Debug, PartialEq, Eq)]
pub struct Read {
    pub leaves: usize,
    pub codewords: bool,
}

// Decodes column j by way of two buffers of its length; a refused column stays. `sound` says whether the columns before it are codewords.
fn decode_column(
    code: Profile,
    j: usize,
    a: usize,
    sound: bool,
    grid: &mut [u8],
    line: &mut [u8],
    left: &mut [u8],
    area: &mut [i32],
) -> Read
    requires { ColumnAsks code.m code.r code.rounds code.leaves j a grid.old (length line.old) (length left.old) (length area.old) }
    ensures { ColumnRead code.m code.r code.rounds code.leaves j a sound grid.old grid.new result }
{
    gather(grid, j, a, line);
    let answer = run(code.m, code.r, code.rounds, code.leaves, line, left, area);
    match answer {
        Ok(read) => {
            put(read.mended, left, j, a, grid);
            Read {
                leaves: read.leaves,
                codewords: sound,
            }
        }
        Err(refused) => Read {
            leaves: refused.leaves,
            codewords: test(sound, code.m, code.r, line, left),
        },
    }
}

// Decodes every column.
fn decode_each(
    mr: usize,
    code: Profile,
    grid: &mut [u8],
    line: &mut [u8],
    left: &mut [u8],
    area: &mut [i32],
) -> Read
    requires { ColumnsAsk mr code.m code.r code.rounds code.leaves grid.old (length line.old) (length left.old) (length area.old) }
    ensures { ColumnsRead mr code.m code.r code.rounds code.leaves grid.old grid.new result }
{
    let a = words::size(mr);
    let mut sum = 0;
    let mut codewords = true;
    for j in 0..a {
        let c = decode_column(code, j, a, codewords, grid, line, left, area);
        sum += c.leaves;
        codewords = c.codewords;
    }
    Read {
        leaves: sum,
        codewords,
    }
}

// The same, with buffers of its own for one column.
pub fn decode_columns(
    mr: usize,
    mc: usize,
    r: usize,
    rounds: usize,
    leaves: usize,
    grid: &mut [u8],
    area: &mut [i32],
) -> Read
    requires { ColumnsAsk mr mc r rounds leaves grid.old (2 ^ mc) (2 ^ mc) (length area.old) }
    ensures { ColumnsRead mr mc r rounds leaves grid.old grid.new result }
{
    let b = words::size(mc);
    let mut line = [0u8; 64];
    let mut left = [0u8; 64];
    let code = Profile {
        m: mc,
        r,
        rounds,
        leaves,
    };
    decode_each(mr, code, grid, &mut line[0..b], &mut left[0..b], area)
}
