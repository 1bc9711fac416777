// The turns of a program that lists its input: what is kept from turn to turn, and the reading of more.
#![tactic(auto)]

ghost use Rattle.std.specs.Prelude.{◌≡◌, true, false, ◌+◌, ◌≤◌, ◌<◌, length, take, drop};
ghost use Rattle.std.specs.Io.KnownBytes.{Appends, Consumes, IsAtEnd};
ghost use Rattle.turns.specs.Turns.{Came, Filled, ReadOut, came, capped};

use std::io::{Read, Write};

// What is kept from turn to turn: how many bytes the buffer holds, whether the input has ended with them, the lines and the accepted
// records counted, and whether to go on.
#[derive(Clone, Copy, Debug, PartialEq, Eq)]
pub struct State {
    pub held: usize,
    pub last: bool,
    pub records: u64,
    pub accepted: u64,
    pub more: bool,
}

// A reader or a writer, and whether a call of it has failed.
#[derive(Drop)]
pub struct Stream<T> {
    pub inner: T,
    pub failed: bool,
}

impl<T> Stream<T> {
    pub fn new(inner: T) -> Stream<T>
        ensures inner { result.inner ≡ inner }
        ensures failed { result.failed ≡ false }
    {
        Stream {
            inner,
            failed: false,
        }
    }
}

// Reads once, to the end of what the buffer holds. Answers how many bytes came, 0 where the input has ended or the read failed.
fn read_more<R: Read>(from: &mut Stream<R>, buffer: &mut [u8], held: usize) -> usize
    requires { held ≤ length buffer.old }
    ensures came { Came held buffer.old buffer.new result }
    ensures taken { Consumes (R.remaining from.old.inner) (R.remaining from.new.inner) (take result (drop held buffer.new)) }
    ensures ended { result ≡ 0 → held < length buffer.old → from.new.failed ≡ false → IsAtEnd (R.remaining from.new.inner) }
    ensures failing { from.new.failed ≡ false → from.old.failed ≡ false }
{
    match from.inner.read(&mut buffer[held..]) {
        Ok(n) => n,
        Err(_) => {
            from.failed = true;
            0
        }
    }
}

// The state after a read, where the buffer has room and the input has not ended.
pub fn filled<R: Read>(from: &mut Stream<R>, s: State, buffer: &mut [u8]) -> State
    requires { s.held ≤ length buffer.old }
    ensures filled { Filled s result buffer.old buffer.new }
    ensures taken { Consumes (R.remaining from.old.inner) (R.remaining from.new.inner) (came s result buffer.new) }
    ensures ended { ReadOut s.last from.old.failed (R.remaining from.old.inner) → ReadOut result.last from.new.failed (R.remaining from.new.inner) }
    ensures failing { from.new.failed ≡ false → from.old.failed ≡ false }
{
    let held = s.held;
    if s.last {
        return s;
    }
    if held == buffer.len() {
        return s;
    }
    let n = read_more(from, buffer, held);
    State {
        held: held + n,
        last: n == 0,
        more: true,
        ..s
    }
}

// Reads until the buffer is full, the input ends or a read fails. Answers how many bytes came.
pub fn read_full<R: Read>(from: &mut Stream<R>, buffer: &mut [u8]) -> usize
    ensures within { result ≤ length buffer.new }
    ensures taken { Consumes (R.remaining from.old.inner) (R.remaining from.new.inner) (take result buffer.new) }
    ensures short { result < length buffer.new → from.new.failed ≡ false → IsAtEnd (R.remaining from.new.inner) }
    ensures failing { from.new.failed ≡ false → from.old.failed ≡ false }
{
    let mut held = 0;
    // By what is held: each read brings as many bytes as it likes.
    while held < buffer.len() {
        let n = read_more(from, buffer, held);
        if n == 0 {
            return held;
        }
        held += n;
    }
    held
}

// Writes all of the bytes, or some of them where a write fails. Answers whether all were written.
pub fn sent<W: Write>(to: &mut Stream<W>, bytes: &[u8]) -> bool
    ensures given { result ≡ true → Appends (W.contents to.old.inner) (W.contents to.new.inner) bytes.now }
    ensures whole { to.new.failed ≡ false → result ≡ true }
    ensures failing { to.new.failed ≡ false → to.old.failed ≡ false }
{
    let all = to.inner.write_all(bytes).is_ok();
    if !all {
        to.failed = true;
    }
    all
}

// The sum, and no more than a u64 holds.
pub fn plus(a: u64, b: usize) -> u64
    ensures { result ≡ capped (a + b) }
{
    a.saturating_add(b as u64)
}
