// The meter listing, for billing.
#![tactic(auto)]

use readers::Reader;
use turns::Stream;

fn main(rt: HostRuntime) {
    let mut from = Stream::new(rt.stdin());
    let mut to = Stream::new(rt.stdout());
    programs::run(Reader::Billing, &mut from, &mut to);
}
