// The generator of a load: states, messages, wrong places.
#![tactic(auto)]

ghost use Rattle.std.specs.Prelude.{◌≡◌, ◌^◌, ◌≤◌, ◌<◌, length};
ghost use Rattle.generator.specs.Generator;
ghost use Rattle.generator.specs.Generator.{draw, places_from};
ghost use Rattle.generator.specs.Drawing.{MessageDrawn, Placed, held};

// One step from a state to the next.
pub fn step(x: u32) -> u32
    ensures { result ≡ Rattle.generator.specs.Generator.step x }
{
    let a = x ^ (x << 13);
    let b = a ^ (a >> 17);
    b ^ (b << 5)
}

// Draws a message, one step a bit, and gives the state after it.
pub fn draw_message(start: u32, message: &mut [u8]) -> u32
    ensures { MessageDrawn start message.old message.new result }
{
    let mut x = start;
    for b in message {
        x = step(x);
        *b = (x >> 31) as u8;
    }
    x
}

// A state, and how many places are wrong.
#[derive(Clone, Copy, Debug, PartialEq, Eq)]
pub struct Places {
    pub state: u32,
    pub wrong: usize,
}

// Draws one of n places. One that is wrong already stays so.
fn draw_place(n: usize, p: Places, noise: &mut [u8]) -> Places
    requires { (0 < n) × (length noise.old ≡ n) × Placed (held p noise.old) p noise.old }
    ensures { Placed (draw (held p noise.old)) result noise.new }
{
    let x = step(p.state);
    let at = x as usize % n;
    let new = 1 - noise[at];
    let wrong = p.wrong + usize::from(new);
    noise[at] = 1;
    Places { state: x, wrong }
}

// Draws places until `asked` of them are wrong, at most as often as there are places, and leaves the word that is 1 at these.
pub fn draw_places(m: usize, start: u32, asked: usize, noise: &mut [u8]) -> Places
    requires { (m ≤ 10) × (length noise.old ≡ 2 ^ m) }
    ensures { Placed (places_from (2 ^ m) asked start) result noise.new }
{
    let n = words::size(m);
    noise.fill(0);
    let mut p = Places {
        state: start,
        wrong: 0,
    };
    for _ in 0..n {
        if asked <= p.wrong {
            return p;
        }
        p = draw_place(n, p, noise);
    }
    p
}
