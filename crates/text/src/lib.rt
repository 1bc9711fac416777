// Digits, bytes and texts, put after what a buffer holds already.
#![tactic(auto)]

ghost use Rattle.std.specs.Prelude.{◌≡◌, [], ◌∷◌, ◌+◌, ◌-◌, ◌/◌, ◌%◌, ◌^◌, ◌≤◌, ◌<◌, length};
ghost use Rattle.text.specs.Numbers.{ten_digits, decimal};
ghost use Rattle.text.specs.Texts.{Added};

const POWERS: [u32; 10] = [
    1000000000, 100000000, 10000000, 1000000, 100000, 10000, 1000, 100, 10, 1,
];

// Digit i of the ten decimal digits of n.
fn ten_digit(n: u32, i: usize) -> u8
    requires { i < 10 }
    ensures { result ≡ 48 + n / 10 ^ (9 - i) % 10 }
{
    48 + (n / POWERS[i] % 10) as u8
}

// A buffer that is filled from its front: the next byte goes to `at`.
#[derive(Drop)]
pub struct Writer<'a> {
    pub out: &'a mut [u8],
    pub at: usize,
}

impl Writer<'_> {
    // The ten decimal digits of n.
    pub fn put_ten(&mut self, n: u32)
        requires { self.old.at + 10 ≤ length self.old.out.now }
        ensures { Added (ten_digits n) self.old self.new }
    {
        for i in 0..10 {
            self.out[self.at + i] = ten_digit(n, i);
        }
        self.at += 10;
    }

    pub fn put_byte(&mut self, b: u8)
        requires { self.old.at < length self.old.out.now }
        ensures { Added (b ∷ []) self.old self.new }
    {
        self.out[self.at] = b;
        self.at += 1;
    }

    pub fn put_text(&mut self, text: &[u8])
        requires { self.old.at + length text.now ≤ length self.old.out.now }
        ensures { Added text.now self.old self.new }
    {
        let end = self.at + text.len();
        self.out[self.at..end].copy_from_slice(text);
        self.at = end;
    }

    // A number in decimal.
    pub fn put_decimal(&mut self, n: u64)
        requires { self.old.at + length (decimal n) ≤ length self.old.out.now }
        ensures { Added (decimal n) self.old self.new }
    {
        // Most numbers in a line have one digit.
        if n < 10 {
            self.put_byte(48 + n as u8);
            return;
        }
        self.put_decimal(n / 10);
        self.put_byte(48 + (n % 10) as u8);
    }
}
