// Sixteen places for tallies under names of 8 bytes.
#![tactic(auto)]

ghost use Rattle.std.specs.Prelude.{◌≡◌, not};
ghost use Rattle.std.specs.List.{position};
ghost use Rattle.tallies.specs.Store.{kept, holding, used_in, found, room_for, held_tally, empty_store, saved, returned, dropped};

use refusals::Refusal;
use tally::Tally;

pub mod scripts;

#[derive(Clone, Copy, Debug, PartialEq, Eq)]
pub struct Name {
    pub bytes: [u8; 8],
}

// A tally under a name.
#[derive(Clone, Copy)]
pub struct Place {
    pub name: Name,
    pub tally: Tally,
}

#[derive(Clone, Copy)]
pub struct Store {
    pub places: [Option<Place>; 16],
}

// What a call answers, and the tally and the store after it.
#[derive(Clone, Copy)]
pub struct Kept {
    pub answer: Result<(), Refusal>,
    pub tally: Tally,
    pub store: Store,
}

// Whether a place holds a tally under that name.
fn holds(place: Option<Place>, name: Name) -> bool
    ensures { result ≡ holding name place }
{
    match place {
        Some(held) => held.name == name,
        None => false,
    }
}

// The place that holds a tally under that name.
fn find(store: &Store, name: Name) -> Option<usize>
    ensures { result ≡ position (holding name) store.now.places }
{
    store.places.iter().position(|p| holds(*p, name))
}

// The first free place.
fn free(store: &Store) -> Option<usize>
    ensures { result ≡ position (λ p. not (used_in p)) store.now.places }
{
    store.places.iter().position(|p| p.is_none())
}

// The place for a tally under that name: its own, else the first that is free.
fn room(store: &Store, name: Name) -> Option<usize>
    ensures { result ≡ found (room_for store.now name) }
{
    match find(store, name) {
        Some(own) => Some(own),
        None => free(store),
    }
}

// The tally under that name.
fn held(store: &Store, name: Name) -> Option<Tally>
    ensures { result ≡ held_tally store.now name }
{
    let at = find(store, name)?;
    let place = store.places[at]?;
    Some(place.tally)
}

// What stands before the first call.
fn before(tally: Tally, store: Store) -> Kept
    ensures { result ≡ kept (Ok tt) tally store }
{
    Kept {
        answer: Ok(()),
        tally,
        store,
    }
}

// The calls in place: a store is two kilobytes, and a run of a script would copy it at each operation.
fn save_in(state: &mut Kept, name: Name)
    ensures { state.new ≡ saved state.old.store name state.old.tally }
{
    match room(&state.store, name) {
        Some(at) => {
            let tally = state.tally;
            state.store.places[at] = Some(Place { name, tally });
            state.answer = Ok(());
        }
        None => state.answer = Err(Refusal::NamesFull),
    }
}

fn return_in(state: &mut Kept, name: Name)
    ensures { state.new ≡ returned state.old.store name state.old.tally }
{
    match held(&state.store, name) {
        Some(earlier) => {
            state.tally = earlier;
            state.answer = Ok(());
        }
        None => state.answer = Err(Refusal::UnknownName),
    }
}

fn drop_in(state: &mut Kept, name: Name)
    ensures { state.new ≡ dropped state.old.store name state.old.tally }
{
    match find(&state.store, name) {
        Some(at) => {
            state.store.places[at] = None;
            state.answer = Ok(());
        }
        None => state.answer = Err(Refusal::UnknownName),
    }
}

// No name is held.
pub fn empty() -> Store
    ensures { result ≡ empty_store }
{
    Store { places: [None; 16] }
}

// Saves the tally under that name.
pub fn save(store: Store, name: Name, tally: Tally) -> Kept
    ensures { result ≡ saved store name tally }
{
    let mut state = before(tally, store);
    save_in(&mut state, name);
    state
}

// Returns to the tally under that name, in place of the one given.
pub fn return_to(store: Store, name: Name, tally: Tally) -> Kept
    ensures { result ≡ returned store name tally }
{
    let mut state = before(tally, store);
    return_in(&mut state, name);
    state
}

// Drops the name, whose place is then free.
pub fn drop_name(store: Store, name: Name, tally: Tally) -> Kept
    ensures { result ≡ dropped store name tally }
{
    let mut state = before(tally, store);
    drop_in(&mut state, name);
    state
}
