// The bits of a record, packed eight to a byte, unpacked into a word.
#![tactic(auto)]

ghost use Rattle.std.specs.Prelude.{◌≡◌, ◌+◌, ◌-◌, ◌/◌, ◌%◌, ◌^◌, ◌≤◌, length};
ghost use Rattle.words.specs.Sum.{tabulate};
ghost use Rattle.unpacking.specs.Packed.{packed_bit};

// The bits of a byte, the top one first.
fn unpack_byte(b: u8, bits: &mut [u8])
    requires { length bits.old ≡ 8 }
    ensures { bits.new ≡ tabulate 8 (λ i. b / 2 ^ (7 - i) % 2) }
{
    // By index: a place asks for its own shift.
    for i in 0..8 {
        bits[i] = (b >> (7 - i)) % 2;
    }
}

// The bits packed after the five bytes of the record's head, one a place of the word.
pub fn unpack(part: &[u8], word: &mut [u8])
    requires { (length word.old % 8 ≡ 0) × (5 + length word.old / 8 ≤ length part.now) }
    ensures { word.new ≡ tabulate (length word.old) (packed_bit part.now) }
{
    // Counted in bytes, which fill eight places each.
    for k in 0..word.len() / 8 {
        let at = 8 * k;
        unpack_byte(part[5 + k], &mut word[at..at + 8]);
    }
}
