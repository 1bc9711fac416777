// Four bytes of a block as one number.
#![tactic(auto)]

ghost use Rattle.std.specs.Prelude.{◌≡◌, ◌+◌, ◌*◌, ◌≤◌, length};
ghost use Rattle.byte_quads.specs.ByteQuads.{quad_at, Bytes};

// The values of four bytes, packed: the compiler makes one load of the four.
pub fn quad_at(word: &[u8], i: usize) -> i32
    requires i_in_bounds { 4 * i + 4 ≤ length word.now }
    requires bytes { Bytes word.now }
    ensures { result ≡ quad_at word.now i }
{
    let j = 4 * i;
    let x = u32::from(word[j]) + 256 * u32::from(word[j + 1]);
    let y = u32::from(word[j + 2]) + 256 * u32::from(word[j + 3]);
    16843009 - 2 * ((x + 65536 * y) as i32)
}
