// The capture reader called at positions of a capture with word buffers of right and wrong lengths. A line for each call: the answer, and
// what the buffer holds, 2 where nothing was written.
#![tactic(auto)]

use capture::{NoRecord, Record};
use std::io;
use tables::Standard;

fn print_found(rt: &impl Print, found: Result<Option<Record>, NoRecord>) -> io::Result<()> {
    match found {
        Ok(Some(record)) => {
            let Record {
                serial,
                profile,
                next,
            } = record;
            print!(rt; "serial {serial}")?;
            print!(rt; ", profile {profile}")?;
            print!(rt; ", next at {next}")
        }
        Ok(None) => print!(rt; "none left"),
        Err(missing) => {
            let number = refusals::number(missing.why);
            let serial = missing.serial;
            print!(rt; "refused {number}")?;
            print!(rt; ", serial {serial}")
        }
    }
}

fn print_byte(rt: &impl Print, byte: u8) -> io::Result<()> {
    print!(rt; "{byte}")
}

fn print_bytes(rt: &impl Print, word: &[u8]) -> io::Result<()> {
    for byte in word {
        print_byte(rt, *byte)?;
    }
    Ok(())
}

fn read(rt: &impl Print, at: usize, word: &mut [u8]) -> io::Result<()> {
    // the first record of document 01's example, a record of profile 1, a profile above 4, and a record that is cut
    let capture =
        b"\x00\x3D\x09\x11\x00\x7F\xFF\x00\x00\x00\x00\x00\x07\x01\x80\x00\x00\x00\x00\x00\x00\x01\x00\x00\x00\x08\x05\x00\x00\x00\x09\x00\xFF\xFF\xFF";
    let found = capture::find_record(&Standard, capture, at, word);
    print_found(rt, found)?;
    let size = word.len();
    print!(rt; ", word of {size}")?;
    print!(rt; " (")?;
    print_bytes(rt, word)?;
    println!(rt; ")")
}

// A write that fails ends the program with its error.
fn main(rt: HostRuntime) -> io::Result<()> {
    let mut none = [2u8; 0];
    let mut short = [2u8; 31];
    let mut right = [2u8; 32];
    let mut long = [2u8; 33];
    let mut double = [2u8; 64];
    read(&rt, 0, &mut none)?;
    read(&rt, 0, &mut short)?;
    read(&rt, 0, &mut long)?;
    read(&rt, 0, &mut double)?;
    read(&rt, 9, &mut right)?;
    read(&rt, 0, &mut right)?;
    read(&rt, 9, &mut double)?;
    read(&rt, 22, &mut short)?;
    read(&rt, 27, &mut short)?;
    read(&rt, 31, &mut short)?;
    read(&rt, 35, &mut short)?;
    read(&rt, 18446744073709551615, &mut short)
}
