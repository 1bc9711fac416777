// Runs of operations that are written in a script.
ghost use Rattle.std.specs.Prelude.{◌≡◌, ◌+◌, ◌≤◌, ◌<◌, length};
ghost use Rattle.refusals.specs.Refusals.{answer_number};
ghost use Rattle.tallies.specs.History.{operated};
ghost use Rattle.tallies.specs.Script.{Runs, RunsLent, size_of, size_at, name_at, operation_at};

use crate::{Kept, Name, before, drop_in, empty, return_in, save_in};
use refusals::Refusal;
use tally::{Tally, counted, of_counts, put};

// How many operations a run made, and the tally after them.
#[derive(Clone, Copy)]
pub struct Ran {
    pub made: usize,
    pub tally: Tally,
}

fn size_of(code: u8) -> usize
    ensures { result ≡ size_of code }
{
    if code == 0 {
        return 2;
    }
    if code <= 3 {
        return 9;
    }
    0
}

// The bytes of the operation at a position, 0 where none stands there whole.
fn size_at(script: &[u8], at: usize) -> usize
    requires { at ≤ length script.now }
    ensures { result ≡ size_at script.now at }
{
    if at == script.len() {
        return 0;
    }
    let size = size_of(script[at]);
    if script.len() - at < size {
        return 0;
    }
    size
}

// The name in the eight bytes from a position on.
fn name_at(script: &[u8], from: usize) -> Name
    requires { from + 8 ≤ length script.now }
    ensures { result ≡ name_at script.now from }
{
    let mut bytes = [0u8; 8];
    let end = from + 8;
    bytes.copy_from_slice(&script[from..end]);
    Name { bytes }
}

// Makes the operation at a position, after what the one before it left.
fn operate(script: &[u8], at: usize, last: &mut Kept)
    requires { 0 < size_at script.now at }
    ensures { last.new ≡ operated (operation_at script.now at) last.old }
{
    let code = script[at];
    if code == 0 {
        last.tally = counted(last.tally, usize::from(script[at + 1]));
        last.answer = Ok(());
        return;
    }
    let name = name_at(script, at + 1);
    match code {
        1 => save_in(last, name),
        2 => return_in(last, name),
        _ => drop_in(last, name),
    }
}

fn number(answer: Result<(), Refusal>) -> u8
    ensures { result ≡ answer_number answer }
{
    match answer {
        Ok(()) => 0,
        Err(why) => refusals::number(why),
    }
}

fn ended(made: usize, last: &Kept) -> Ran
    ensures { (result.made ≡ made) × (result.tally ≡ last.now.tally) }
{
    let tally = last.tally;
    Ran { made, tally }
}

// Runs a script from a tally, with no name held, and writes an answer for each operation.
pub fn run(script: &[u8], answers: &mut [u8], tally: Tally) -> Ran
    ensures { Runs script.now tally answers.old answers.new result }
{
    let mut last = before(tally, empty());
    let mut at = 0;
    for made in 0..answers.len() {
        let size = size_at(script, at);
        if size == 0 {
            return ended(made, &last);
        }
        operate(script, at, &mut last);
        answers[made] = number(last.answer);
        at += size;
    }
    ended(answers.len(), &last)
}

// Runs a script on lent counts. Where these are not 32, it writes nothing and answers the greatest number.
pub fn run_lent(script: &[u8], answers: &mut [u8], counts: &mut [u32]) -> u64
    ensures { RunsLent script.now answers.old answers.new counts.old counts.new result }
{
    if counts.len() != 32 {
        return 18446744073709551615;
    }
    let start = of_counts(counts);
    let ran = run(script, answers, start);
    let tally = ran.tally;
    put(tally, counts);
    ran.made as u64
}
