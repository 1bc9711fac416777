// A block of order 1 read from its bytes to the output's: only the correlations go through the area.
#![tactic(auto)]

ghost use Rattle.std.specs.Prelude.{◌≡◌};
ghost use Rattle.hadamard.specs.Correlation.{values};
ghost use Rattle.rule.specs.Reading.{order1};
ghost use Rattle.rule.specs.Decoding.{zeros};
ghost use Rattle.direct.specs.Direct.{Readable, Gives};

use block_peak::find_peak;
use told::{Accepted, Noise, Told, changed, refused};

// The reading at order 1 of a block. A block that is a codeword already is its own nearest one, and needs no correlations.
fn first_order(m: usize, word: &[u8], out: &mut [u8], area: &mut [i32]) -> Told
    requires { Readable m word.now out.old area.old }
    ensures { Gives (order1 m (values word.now)) word.now out.old out.new result }
{
    let accepted = Accepted {
        rounds: 0,
        leaves: 1,
    };
    if block_test::is_affine(m, word) {
        words::copy(word, out);
        return Told {
            answer: Ok(accepted),
            kept: true,
        };
    }
    let k = m - 2;
    let q = words::size(k);
    blocks::correlate(k, word, area);
    let Some(peak) = find_peak(q + q, &area[0..q]) else {
        return refused(Noise::Tie, 0, 1);
    };
    let mask = peak.mask;
    let constant = peak.constant;
    octets::write_affine(out, mask, constant);
    changed(Ok(accepted))
}

// The reading at order 1 of a block, and the area cleared.
pub fn read_block(m: usize, word: &[u8], out: &mut [u8], area: &mut [i32]) -> Told
    requires { Readable m word.now out.old area.old }
    ensures given { Gives (order1 m (values word.now)) word.now out.old out.new result }
    ensures cleared { area.new ≡ zeros area.old }
{
    let told = first_order(m, word, out, area);
    area::fill(area, 0);
    told
}
