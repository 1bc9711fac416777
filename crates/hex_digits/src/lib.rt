// Messages in hexadecimal.
#![tactic(auto)]

ghost use Rattle.std.specs.Prelude.{◌≡◌, ◌+◌, ◌*◌, ◌/◌, ◌≤◌, ◌<◌, length};
ghost use Rattle.words.specs.Word.{bit};
ghost use Rattle.text.specs.Numbers.{hex_digit, nibble, hex_of};
ghost use Rattle.text.specs.Texts.{Appended, Bits};

// A message bit, 0 past the end.
fn bit_or_zero(message: &[u8], i: usize) -> u8
    requires { Bits message.now }
    ensures { (result ≡ bit message.now i) × (result < 2) }
{
    if i < message.len() { message[i] } else { 0 }
}

fn nibble_at(message: &[u8], i: usize) -> u8
    requires { Bits message.now × (4 * i < length message.now + 8) }
    ensures { (result ≡ nibble message.now i) × (result < 16) }
{
    let b0 = bit_or_zero(message, 4 * i);
    let b1 = bit_or_zero(message, 4 * i + 1);
    let b2 = bit_or_zero(message, 4 * i + 2);
    let b3 = bit_or_zero(message, 4 * i + 3);
    ((b0 * 2 + b1) * 2 + b2) * 2 + b3
}

fn hex_digit(d: u8) -> u8
    requires { d < 16 }
    ensures { result ≡ hex_digit d }
{
    if d < 10 { 48 + d } else { 87 + d }
}

// A message in hexadecimal.
pub fn put_hex(message: &[u8], out: &mut [u8], at: usize) -> usize
    requires { Bits message.now × (length message.now ≤ 1024) × (at + (length message.now + 7) / 8 * 2 ≤ length out.old) }
    ensures { Appended out.old at (hex_of message.now) result out.new }
{
    let digits = (message.len() + 7) / 8 * 2;
    for i in 0..digits {
        out[at + i] = hex_digit(nibble_at(message, i));
    }
    at + digits
}
