// Messages: the masks of degree at most r, ascending.
#![tactic(auto)]

ghost use Rattle.std.specs.Prelude.{◌≡◌, ◌<◌, ◌≤◌, length};
ghost use Rattle.words.specs.Sum.{tabulate};
ghost use Rattle.words.specs.Word.{bit};
ghost use Rattle.code.specs.Code;
ghost use Rattle.code.specs.Code.{low_test};
ghost use Rattle.messages.specs.DegreeTable.{Degrees};

// The number of ones in a mask.
pub fn degree(a: usize) -> u16
    requires { a < 1024 }
    ensures { result ≡ Rattle.code.specs.Code.degree a }
{
    u16::count_ones(a as u16) as u16
}

// The number of message bits: the sum of the binomials of m over 0 to r.
pub fn dimension(m: usize, r: usize) -> usize
    requires { (m ≤ 10) × (r ≤ m) }
    ensures { result ≡ Rattle.code.specs.Code.dimension m r }
{
    let mut k = 1;
    let mut c = 1;
    for i in 0..r {
        c = c * (m - i) / (i + 1);
        k += c;
    }
    k
}

// Writes the degree of each mask below n.
pub fn degrees(d: &mut [u8], n: usize)
    requires { (n ≤ 1024) × (n ≤ length d.old) }
    ensures { Degrees n d.new }
{
    // By index: the place is the mask.
    for a in 0..n {
        d[a] = degree(a) as u8;
    }
}

// Writes each mask's message bit, and 0 above degree r. d holds the degrees.
pub fn spread(r: usize, d: &[u8], message: &[u8], out: &mut [u8])
    requires { Degrees (length out.old) d.now × (length message.now ≡ Rattle.code.specs.Code.rank r (length out.old)) }
    ensures { out.new ≡ tabulate (length out.old) (Rattle.code.specs.Code.spread r message.now) }
{
    // By index: a is the mask, and j the next bit of the message.
    let mut j = 0;
    for a in 0..out.len() {
        if usize::from(d[a]) <= r {
            out[a] = message[j];
            j += 1;
        } else {
            out[a] = 0;
        }
    }
}

// Writes the entries of t at the masks of degree at most r. d holds the degrees.
pub fn gather(r: usize, d: &[u8], t: &[u8], out: &mut [u8])
    requires { Degrees (length t.now) d.now × (length out.old ≡ Rattle.code.specs.Code.rank r (length t.now)) }
    ensures { out.new ≡ Rattle.code.specs.Code.gather r (bit t.now) (length t.now) }
{
    // By index: a is the mask, and j the next place of the output.
    let mut j = 0;
    for a in 0..t.len() {
        if usize::from(d[a]) <= r {
            out[j] = t[a];
            j += 1;
        }
    }
}

// Whether the entries of t at the masks of degree above r are 0.
pub fn is_low(r: usize, t: &[u8]) -> bool
    requires { (r ≤ 10) × (length t.now ≤ 1024) }
    ensures { result ≡ low_test r (bit t.now) (length t.now) }
{
    let most = r as u16;
    let mut low = true;
    for (a, x) in t.iter().enumerate() {
        low &= (degree(a) <= most) | (*x == 0);
    }
    low
}
