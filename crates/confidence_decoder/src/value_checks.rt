// The checks of a call for confidences: document 01's, with 18 in the place of 8.
ghost use Rattle.std.specs.Prelude.{◌≡◌, ◌++◌, ◌≤◌, length, nat_abs, nat_lt, position};
ghost use Rattle.words.specs.Sum.{all_below};
ghost use Rattle.refusals.specs.Refusals.{code_checks};
ghost use Rattle.rule.specs.Decoding.{limit_checks};
ghost use Rattle.confidences.specs.Answers.{value_checks};
ghost use Rattle.confidences.specs.Confidences.{greatest};
ghost use Rattle.confidence_decoder.specs.Checked.{CheckedValues, is_inside, range_checks};

use profiles::Profile;
use refusals::Refusal;

// Whether every value is in the range: without a way out, so that eight are tested at once.
fn all_inside(values: &[i16]) -> bool
    ensures { result ≡ all_below (length values.now) (is_inside values.now) }
{
    let mut all = true;
    for x in values {
        all &= (-2048 < *x) & (*x < 2048);
    }
    all
}

// The lowest place whose value is outside -2,047 to 2,047.
fn first_outside(values: &[i16]) -> Option<usize>
    ensures { result ≡ position (λ x. nat_lt greatest (nat_abs x)) values.now }
{
    values.iter().position(|x| *x < -2047 || 2047 < *x)
}

// 18: a confidence outside the range.
fn range(values: &[i16]) -> Result<(), Refusal>
    ensures { CheckedValues (range_checks values.now) values.now result }
{
    if all_inside(values) {
        return Ok(());
    }
    match first_outside(values) {
        Some(p) => Err(Refusal::OutOfRange(p)),
        None => Ok(()),
    }
}

// 5 to 7 and 18: the buffers of a call at exponent m.
fn buffers(m: usize, values: &[i16], room: usize, area: usize) -> Result<(), Refusal>
    requires { m ≤ 10 }
    ensures { CheckedValues (value_checks m values.now room area) values.now result }
{
    let n = words::size(m);
    checks::sizes(n, 8 * n, values.len(), room, area)?;
    range(values)
}

// 1 to 7 and 18.
pub fn call(by: Profile, values: &[i16], room: usize, area: usize) -> Result<(), Refusal>
    ensures { CheckedValues (code_checks by.m by.r ++ limit_checks by.rounds by.leaves ++ value_checks by.m values.now room area) values.now result }
{
    code_checks::check_code(by.m, by.r)?;
    checks::limits(by.rounds, by.leaves)?;
    buffers(by.m, values, room, area)
}
