// Records of a capture, written.
ghost use Rattle.std.specs.Prelude.{◌≡◌, [], ◌∷◌, ◌+◌, ◌/◌, ◌%◌, ◌^◌, ◌<◌, ℕ, length};
ghost use Rattle.words.specs.Word.{bit};
ghost use Rattle.load.specs.Records;
ghost use Rattle.load.specs.Records.{packed, record_bytes};
ghost use Rattle.load.specs.Steps.{Packable};

// Eight bits in a byte, the first on top.
fn octet(bits: &[u8]) -> u8
    requires { (length bits.now ≡ 8) × ((i : ℕ) → bit bits.now i < 2) }
    ensures { result ≡ Rattle.load.specs.Records.octet (bit bits.now) }
{
    let mut b = 0u8;
    for x in bits {
        b = b * 2 + *x;
    }
    b
}

// Packs a word's bits.
fn pack(word: &[u8], out: &mut [u8])
    requires { Packable word.now out.old }
    ensures { out.new ≡ packed word.now }
{
    // Counted in bytes, which take eight places each.
    for k in 0..out.len() {
        let at = 8 * k;
        out[k] = octet(&word[at..at + 8]);
    }
}

// Writes the serial, the senior byte first, and the profile.
fn put_head(serial: u32, profile: usize, out: &mut [u8])
    requires { (length out.old ≡ 5) × (profile < 256) }
    ensures { out.new ≡ serial / 2 ^ 24 ∷ serial / 2 ^ 16 % 256 ∷ serial / 2 ^ 8 % 256 ∷ serial % 256 ∷ profile ∷ [] }
{
    out[0] = (serial / 16777216) as u8;
    out[1] = (serial / 65536 % 256) as u8;
    out[2] = (serial / 256 % 256) as u8;
    out[3] = (serial % 256) as u8;
    out[4] = profile as u8;
}

// Writes the record of a word.
pub fn put_record(serial: u32, profile: usize, word: &[u8], out: &mut [u8])
    requires { (length word.now % 8 ≡ 0) × (length out.old ≡ 5 + length word.now / 8) × (profile < 256) × ((i : ℕ) → bit word.now i < 2) }
    ensures { out.new ≡ record_bytes serial profile word.now }
{
    put_head(serial, profile, &mut out[0..5]);
    pack(word, &mut out[5..]);
}
