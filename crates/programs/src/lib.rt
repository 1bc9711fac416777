// A program that lists for a reader: a capture from a stream, its lines to another, under document 01's table. Memory is bounded: the input is
// read, listed and its lines are written a buffer at a time.
#![tactic(auto)]

ghost use Rattle.std.specs.Prelude.{◌≡◌, true, ◌^◌, ◌≤◌, ◌<◌, length, IfSome};
ghost use Rattle.std.specs.Io.KnownBytes.{Appends};
ghost use Rattle.tables.specs.Tables.{ours};
ghost use Rattle.pieces.specs.Listing.{listing_of};
ghost use Rattle.readers.specs.Readers.{lines_for};
ghost use Rattle.programs.specs.Program.{RanBetween, TurnedTo};

use readers::Reader;
use std::io::{Read, Write};
use tables::Table;
use turns::{State, Stream, filled, plus, read_full, sent};

// The numbers that the decoder works in.
fn area() -> [i32; 2048]
    ensures { 2048 ≡ length result }
{
    [0; 2048]
}

// Lists what the buffer holds, moves the rest to its front, and writes the lines. A write that fails ends the listing.
fn listed<W: Write>(
    reader: Reader,
    table: Table,
    s: State,
    to: &mut Stream<W>,
    buffer: &mut [u8],
    out: &mut [u8],
    area: &mut [i32],
) -> State
    requires { s.held ≤ length buffer.old }
    ensures { TurnedTo table (lines_for reader) W.contents s result to.old to.new buffer.old buffer.new out.old out.new area.old area.new }
{
    let held = s.held;
    let d = listing::list_held(reader, table, &mut buffer[..held], s.last, out, area);
    let n = d.written;
    let all = sent(to, &out[..n]);
    State {
        held: held - d.consumed,
        last: s.last,
        records: plus(s.records, d.records),
        accepted: plus(s.accepted, d.accepted),
        more: all & !d.ended,
    }
}

// A proved loop has to end, and nothing says that the input does: the turns are counted down from a number that no run uses up.
fn list_all<R: Read, W: Write>(
    reader: Reader,
    table: Table,
    from: &mut Stream<R>,
    to: &mut Stream<W>,
    buffer: &mut [u8],
    out: &mut [u8],
    area: &mut [i32],
) -> State
    ensures { RanBetween table (lines_for reader) R.remaining W.contents from.old from.new to.old to.new result buffer.new }
{
    let mut s = State {
        held: 0,
        last: false,
        records: 0,
        accepted: 0,
        more: true,
    };
    let mut turns = u64::MAX;
    while turns > 0 && s.more {
        turns -= 1;
        s = listed(
            reader,
            table,
            filled(from, s, buffer),
            to,
            buffer,
            out,
            area,
        );
    }
    s
}

// Lists all of the input for the reader. Answers whether all of it was read and listed, and the whole listing written.
pub fn run<R: Read, W: Write>(reader: Reader, from: &mut Stream<R>, to: &mut Stream<W>) -> bool
    ensures { result ≡ true → IfSome (R.remaining from.old.inner) (λ c. length c < 2 ^ 64 → Appends (W.contents to.old.inner) (W.contents to.new.inner) (listing_of ours (lines_for reader) c)) }
{
    let mut header = [0u8; 5];
    let mut out = [0u8; 65536];
    let got = read_full(from, &mut header);
    if !header::header_is_right(&header[..got]) {
        let n = notices::header_line(&mut out);
        sent(to, &out[..n]);
        return !(from.failed | to.failed);
    }
    let mut buffer = [0u8; 65536];
    let mut numbers = area();
    let s = list_all(
        reader,
        tables::ours(),
        from,
        to,
        &mut buffer,
        &mut out,
        &mut numbers,
    );
    let n = notices::last_line(s.records, s.accepted, &mut out);
    sent(to, &out[..n]);
    !(s.more | from.failed | to.failed)
}

#[cfg(test)]
mod tests {
    use super::*;
    use std::io;
    use std::test::Fail;

    // Gives what it has, and then fails so many times.
    #[derive(Clone, Copy)]
    struct Broken<'a> {
        left: &'a [u8],
        fails: usize,
    }

    impl Read for Broken<'_> {
        fn read(&mut self, buf: &mut [u8]) -> io::Result<usize> {
            if self.left.len() == 0 && self.fails > 0 {
                self.fails -= 1;
                return Err(io::Error::from(io::ErrorKind::Other));
            }
            self.left.read(buf)
        }
    }

    #[test]
    fn lists(rt: HostRuntime) -> Result<(), Fail> {
        let mut from = Stream::new(
            b"WMR\x00\x01\x00\x3D\x09\x11\x00\x7F\xFF\x00\x00\x00\x3D\x09\x12\x00\xFF\x00\x00\x00".as_slice(),
        );
        let mut to = Stream::new(Vec::new(rt.alloc()));
        assert!(rt; run(Reader::Billing, &mut from, &mut to));
        assert_eq!(rt;
            to.inner.as_slice(),
            b"0004000017 84\n0004000018 refused 9\n2 records, 1 accepted\n".as_slice()
        );
        Ok(())
    }

    #[test]
    fn a_failed_read_ends_the_input(rt: HostRuntime) -> Result<(), Fail> {
        let mut from = Stream::new(Broken {
            left: b"WMR\x00\x01\x00\x3D\x09\x11\x00\x7F\xFF\x00\x00".as_slice(),
            fails: 1,
        });
        let mut to = Stream::new(Vec::new(rt.alloc()));
        assert!(rt; !run(Reader::Billing, &mut from, &mut to));
        assert!(rt; from.failed);
        assert_eq!(rt;
            to.inner.as_slice(),
            b"0004000017 84\n1 records, 1 accepted\n".as_slice()
        );
        Ok(())
    }
}
