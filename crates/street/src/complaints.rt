// What is said on standard error where the settings are bad. A write to it that fails is let go.
use crate::arguments::BadArgument;
use refusals::Refusal;
use street_settings::Bad;

// How the program is called.
fn usage(rt: &impl Eprint) {
    let _ = eprintln!(rt; "usage: street [summary] [PROFILE [WRONG [METERS [RETRIES [START]]]]]");
}

// What is bad about an argument.
fn fault(why: Bad) -> &'static str {
    match why {
        Bad::NotNumber => "neither a number from 0 to 4294967295 nor the word summary",
        Bad::TooMany => "a sixth number",
    }
}

// Which argument is bad, and why.
pub fn argument(rt: &impl Eprint, bad: BadArgument) {
    let number = bad.number;
    let fault = fault(bad.why);
    let _ = eprint!(rt; "street: argument {number}");
    let _ = eprintln!(rt; " is {fault}");
    usage(rt);
}

// The limit that the settings pass.
fn limit(why: Refusal) -> &'static str {
    match why {
        Refusal::Profile => "profiles are 0 to 4",
        Refusal::LoadStart => "the start is 1 or more",
        Refusal::WrongPlaces => "no more places can be wrong than a block of the profile has",
        Refusal::Meters => "meters are 1 to 256",
        Refusal::Retries => "retries are 0 to 15",
        _ => "",
    }
}

// The refusal's number, and the limit.
pub fn refused(rt: &impl Eprint, why: Refusal) {
    let number = refusals::number(why);
    let limit = limit(why);
    let _ = eprintln!(rt; "street: refused {number}: {limit}");
}
