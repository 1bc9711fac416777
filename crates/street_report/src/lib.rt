// What a planner reads of a street: a line for each step, and the summary.
#![tactic(auto)]

ghost use Rattle.std.specs.Prelude.{◌≡◌, ◌+◌, ◌≤◌, ◌++◌, length, eqb};
ghost use Rattle.words.specs.Word.{indicator};
ghost use Rattle.text.specs.Numbers.{decimal};
ghost use Rattle.text.specs.Texts.{Added};
ghost use Rattle.pieces.specs.Pieces.{Puts};
ghost use Rattle.streets.specs.State.{answered};
ghost use Rattle.street_report.specs.Report.{answer_text, no_counts, plus_step, step_line, step_of, summary_line};

use streets::Fate;
use text::Writer;
use turns::plus;

// The blocks sent, those accepted right, accepted as another codeword and refused, and the meters never read.
#[derive(Clone, Copy, Debug, PartialEq, Eq)]
pub struct Counts {
    pub sent: u64,
    pub right: u64,
    pub other: u64,
    pub refused: u64,
    pub never: u64,
}

// Before the first step.
pub fn no_counts() -> Counts
    ensures { result ≡ no_counts }
{
    Counts {
        sent: 0,
        right: 0,
        other: 0,
        refused: 0,
        never: 0,
    }
}

// 1 where a try is the last.
fn at_last(attempt: usize, retries: usize) -> usize
    ensures { result ≡ indicator (eqb attempt retries) }
{
    if attempt == retries {
        return 1;
    }
    0
}

// With one more step, at this try and with this answer.
pub fn counted(c: Counts, retries: usize, attempt: usize, fate: Fate) -> Counts
    ensures { result ≡ plus_step retries c attempt (answered fate) }
{
    let sent = plus(c.sent, 1);
    match fate {
        Fate::Right => Counts {
            sent,
            right: plus(c.right, 1),
            ..c
        },
        Fate::Other => Counts {
            sent,
            other: plus(c.other, 1),
            ..c
        },
        Fate::Refused(_) => Counts {
            sent,
            refused: plus(c.refused, 1),
            never: plus(c.never, at_last(attempt, retries)),
            ..c
        },
    }
}

// A space and the answer.
fn put_answer(w: &mut Writer, fate: Fate)
    requires { w.old.at + 12 ≤ length w.old.out.now }
    ensures text { Added (answer_text (answered fate)) w.old w.new }
    ensures ends { w.new.at ≤ w.old.at + 12 }
{
    match fate {
        Fate::Right => w.put_text(b" right"),
        Fate::Other => w.put_text(b" other"),
        Fate::Refused(why) => lines::put_refusal(w, refusals::number(why)),
    }
}

// A number, and the text after it.
fn put_count(w: &mut Writer, n: u64, after: &[u8])
    requires { w.old.at + (20 + length after.now) ≤ length w.old.out.now }
    ensures text { Added (decimal n ++ after.now) w.old w.new }
    ensures ends { w.new.at ≤ w.old.at + (20 + length after.now) }
{
    w.put_decimal(n);
    w.put_text(after);
}

// The line of a step, put after what the output holds already.
fn put_step(w: &mut Writer, meter: usize, attempt: usize, fate: Fate)
    requires { w.old.at + 54 ≤ length w.old.out.now }
    ensures { Added (step_line (step_of meter attempt fate)) w.old w.new }
{
    put_count(w, meter as u64, b" ");
    w.put_decimal(attempt as u64);
    put_answer(w, fate);
    w.put_byte(10);
}

// The line of a step, in an output of at least 54 bytes. Answers its length.
pub fn step_line(meter: usize, attempt: usize, fate: Fate, out: &mut [u8]) -> usize
    ensures { Puts 54 (step_line (step_of meter attempt fate)) out.old result out.new }
{
    if out.len() < 54 {
        return 0;
    }
    let mut w = Writer { out, at: 0 };
    put_step(&mut w, meter, attempt, fate);
    w.at
}

// The summary, put after what the output holds already.
fn put_summary(w: &mut Writer, c: Counts)
    requires { w.old.at + 145 ≤ length w.old.out.now }
    ensures { Added (summary_line c) w.old w.new }
{
    put_count(w, c.sent, b" sent, ");
    put_count(w, c.right, b" right, ");
    put_count(w, c.other, b" other, ");
    put_count(w, c.refused, b" refused, ");
    put_count(w, c.never, b" never read");
    w.put_byte(10);
}

// The summary, in an output of at least 145 bytes. Answers its length.
pub fn summary_line(c: Counts, out: &mut [u8]) -> usize
    ensures { Puts 145 (summary_line c) out.old result out.new }
{
    if out.len() < 145 {
        return 0;
    }
    let mut w = Writer { out, at: 0 };
    put_summary(&mut w, c);
    w.at
}
