// Whether a block is a first order codeword, level by level: each half of its places goes on as the one below it, or as its complement.
#![tactic(auto)]

ghost use Rattle.std.specs.Prelude.{◌≡◌, true, ◌+◌, ◌%◌, ◌≤◌, ◌<◌, length};
ghost use Rattle.words.specs.Word.{IsWord, bit};
ghost use Rattle.code.specs.Code.{codeword_test};
ghost use Rattle.code.specs.FirstOrder.{repeats, levels_test};
ghost use Rattle.octets.specs.Octets.{packed, AreBits};

// Four bits as one number, a byte each: the compiler makes one load of the four.
fn four_at(word: &[u8], b: usize) -> u32
    requires { (b + 4 ≤ length word.now) × AreBits (bit word.now) }
    ensures { result ≡ packed 4 (λ i. bit word.now (b + i)) }
{
    let x = u32::from(word[b]) + 256 * u32::from(word[b + 1]);
    let y = u32::from(word[b + 2]) + 256 * u32::from(word[b + 3]);
    x + 65536 * y
}

// Eight bits as one number, a byte each.
fn eight_at(word: &[u8], b: usize) -> u64
    requires { (b + 8 ≤ length word.now) × AreBits (bit word.now) }
    ensures { result ≡ packed 8 (λ i. bit word.now (b + i)) }
{
    u64::from(four_at(word, b)) + 4294967296 * u64::from(four_at(word, b + 4))
}

// Whether the places h to 2h - 1 are the first h with one bit added to all, eight at a time.
fn repeats(h: usize, word: &[u8]) -> bool
    requires { (h % 8 ≡ 0) × (0 < h) × (h + h ≤ length word.now) × AreBits (bit word.now) }
    ensures { result ≡ repeats (bit word.now) h }
{
    let t = u64::from(word[0] ^ word[h]) * 72340172838076673;
    let mut same = true;
    for k in 0..h / 8 {
        let i = 8 * k;
        same = same & (eight_at(word, i) ^ eight_at(word, h + i) == t);
    }
    same
}

// The levels of the first eight places, as one test.
fn first_levels(word: &[u8]) -> bool
    requires { (8 ≤ length word.now) × AreBits (bit word.now) }
    ensures { result ≡ levels_test 3 (bit word.now) }
{
    let two = word[1] ^ word[3] == word[0] ^ word[2];
    two & (four_at(word, 0) ^ four_at(word, 4) == u32::from(word[0] ^ word[4]) * 16843009)
}

// The levels from `first` on, where those below pass.
fn levels_from(first: usize, m: usize, word: &[u8]) -> bool
    requires { (levels_test first (bit word.now) ≡ true) × (3 ≤ first) × (first ≤ m) × (m ≤ 10) × IsWord m word.now }
    ensures { result ≡ levels_test m (bit word.now) }
{
    for k in first..m {
        if !repeats(words::size(k), word) {
            return false;
        }
    }
    true
}

// Whether a block of at least eight places is a first order codeword.
pub fn is_affine(m: usize, word: &[u8]) -> bool
    requires { (3 ≤ m) × (m ≤ 10) × IsWord m word.now }
    ensures { result ≡ codeword_test m 1 word.now }
{
    if !first_levels(word) {
        return false;
    }
    levels_from(3, m, word)
}
