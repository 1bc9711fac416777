// A street before the digging, for planners: settings as arguments, a line for each step as it is made, then the summary.
#![tactic(auto)]

use std::io::Write;
use street_report::Counts;
use street_settings::Settings;
use turns::{Stream, sent};

mod arguments;
mod complaints;

// Prints the summary.
fn summarise<W: Write>(to: &mut Stream<W>, counts: Counts) {
    let mut out = [0u8; 145];
    let n = street_report::summary_line(counts, &mut out);
    sent(to, &out[..n]);
}

// Walks the street and prints the summary, or says why the settings are refused.
fn run<W: Write>(rt: &impl Eprint, to: &mut Stream<W>, s: Settings) {
    match walks::walk_street(s, to) {
        Ok(walk) => summarise(to, walk.counts),
        Err(stopped) => complaints::refused(rt, stopped.why),
    }
}

fn main(rt: HostRuntime) {
    let mut to = Stream::new(rt.stdout());
    match arguments::read(&rt) {
        Ok(s) => run(&rt, &mut to, s),
        Err(bad) => complaints::argument(&rt, bad),
    }
}
