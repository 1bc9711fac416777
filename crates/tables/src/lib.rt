// Tables of profiles: what a table has at a number, and document 01's table.
#![tactic(auto)]

ghost use Rattle.std.specs.Prelude.{◌≡◌, ◌≤◌, true};
ghost use Rattle.tables.specs.declared.Table.{Table};
ghost use Rattle.tables.specs.Tables.{in_limits, is_there, slot_of};
ghost use Rattle.tables.specs.Slots.{Proper};

use profiles::Profile;

// The first `count` entries, by their numbers.
#[derive(Clone, Copy)]
pub struct Table {
    pub count: usize,
    pub entries: [Profile; 32],
}

// Document 01's table, without the table made.
#[derive(Clone, Copy)]
pub struct Standard;

// Where profiles come from, a table or what stands for one: what there is at a number.
pub trait Profiles {
    ghost table: { Self → Table };

    fn look(&self, number: usize) -> Option<Profile>
        ensures { (result ≡ slot_of (table self.now) number) × Proper result × (is_there result ≡ true → number ≤ 31) };
}

// Whether a profile is within the limits of a table's entries.
pub fn in_limits(p: Profile) -> bool
    ensures { result ≡ in_limits p }
{
    if p.m < 3 {
        return false;
    }
    if 10 < p.m {
        return false;
    }
    if p.m < p.r {
        return false;
    }
    if p.rounds < 1 {
        return false;
    }
    if 16 < p.rounds {
        return false;
    }
    if p.leaves < 1 {
        return false;
    }
    p.leaves <= 1000000
}

// What stands where there is no entry.
pub fn no_entry() -> Profile
    ensures { result ≡ Rattle.tables.specs.Tables.no_entry }
{
    Profile {
        m: 0,
        r: 0,
        rounds: 0,
        leaves: 0,
    }
}

impl Profiles for Table {
    ghost table = { λ t. t };

    fn look(&self, number: usize) -> Option<Profile> {
        if self.count <= number {
            return None;
        }
        if 31 < number {
            return None;
        }
        let p = self.entries[number];
        if !in_limits(p) {
            return None;
        }
        Some(p)
    }
}

impl Profiles for Standard {
    ghost table = { λ _. Rattle.tables.specs.Tables.ours };

    fn look(&self, number: usize) -> Option<Profile> {
        if 4 < number {
            return None;
        }
        Some(profiles::by_number(number))
    }
}

// Document 01's table.
pub fn ours() -> Table
    ensures { result ≡ Rattle.tables.specs.Tables.ours }
{
    let mut entries = [no_entry(); 32];
    entries[0] = profiles::by_number(0);
    entries[1] = profiles::by_number(1);
    entries[2] = profiles::by_number(2);
    entries[3] = profiles::by_number(3);
    entries[4] = profiles::by_number(4);
    Table { count: 5, entries }
}
