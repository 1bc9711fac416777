// The program's arguments.
use std::env::{Env, FillError};
use street_settings::{Asked, Bad, Settings};

// The number of the first argument that is bad, and why.
#[derive(Clone, Copy, Debug, PartialEq, Eq)]
pub struct BadArgument {
    pub number: usize,
    pub why: Bad,
}

// What argument i says after those before it; nothing where there is no such argument. One of more than 4,096 bytes is taken for no number.
fn next(rt: &impl Env, i: usize, so_far: Asked) -> Option<Result<Asked, Bad>> {
    let mut text = [0u8; 4096];
    match rt.arg(i, &mut text) {
        Ok(n) => Some(street_settings::take(so_far, &text[..n])),
        Err(FillError::TooLong) => Some(Err(Bad::NotNumber)),
        Err(FillError::NotPresent) => None,
    }
}

// The settings that all arguments ask, up to the first that is bad.
pub fn read(rt: &impl Env) -> Result<Settings, BadArgument> {
    let mut asked = street_settings::begin();
    for i in 1..usize::MAX {
        match next(rt, i, asked) {
            Some(said) => asked = said.map_err(|why| BadArgument { number: i, why })?,
            None => break,
        }
    }
    Ok(asked.settings)
}
