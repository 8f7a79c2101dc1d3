//! Numbers by name.
ghost use Rattle.std.specs.Prelude.{◌≡◌, ◌≢◌, ◌⊎◌, ◌<◌, ℕ, None, Some, IsTrue, OnOk, OnErr, IfErr, get_or, vec_len};
ghost use Rattle.std.specs.HashMap.{get_by_text, hasher_of};
ghost use Rattle.std.specs.Str.{bytes_eq};
ghost use Rattle.std.specs.Map.{update};
ghost use Rattle.std.specs.List.{slice_get};
ghost use Rattle.rbac_sets.specs.Name.{fingerprint};
ghost use Rattle.rbac_sets.specs.Sets.{Bytes};
ghost use Rattle.bit_tables.specs.declared.number_table.TheConstants.{NEVER};

use crate::seed::Seed;
use bit_rows::WIDTH;
use rbac_sets::{Name, Refusal};
use std::alloc::Global;
use std::collections::HashMap;

// The guess of a fingerprint that no name of a number ever had. It is no number.
const NEVER: u16 = u16::MAX;

/// Numbers below `WIDTH` by name. Most names are found without a hash, and most of those without a number are known by their
/// fingerprint.
#[derive(Drop)]
pub struct NumberTable {
    numbers: HashMap<String, usize, Seed>,
    // The name of a number, if it has one.
    names: Vec<Option<Name>>,
    // By the fingerprint of a name the number of the last name with that fingerprint, or `NEVER`.
    guesses: Vec<u16>,
    ghost named: { (n : ℕ) (name : Bytes) → slice_get names.items n ≡ Some (Some name) → get_by_text numbers name ≡ Some n },
    ghost guessed: { (name : Bytes) (n : ℕ) → get_by_text numbers name ≡ Some n → get_or guesses.items (fingerprint name) NEVER ≢ NEVER },
}

impl NumberTable {
    /// A table without names. It doesn't allocate.
    pub fn new(alloc: Global, seed: Seed) -> NumberTable
        ensures empty { (name : Bytes) → get_by_text result.numbers name ≡ None }
        ensures seed { hasher_of result.numbers ≡ seed }
    {
        NumberTable {
            numbers: HashMap::with_hasher(alloc, seed),
            names: Vec::new(alloc),
            guesses: Vec::new(alloc),
        }
    }

    /// The number of the name, if it has one. It doesn't allocate.
    pub fn number(&self, name: &Name) -> Option<usize>
        ensures { result ≡ get_by_text self.now.numbers name.now }
    {
        let guess = guess_at(&self.guesses, name.fingerprint());
        if guess == NEVER {
            return None;
        }
        let number = guess as usize;
        if is_at(&self.names, number, name) {
            return Some(number);
        }
        self.numbers.get(name.as_str()).copied()
    }

    /// Gives a number to a name that has none.
    ///
    /// # Errors
    ///
    /// `Memory` if an allocation failed. Each name has the number that it had, if it had one.
    pub fn put(&mut self, alloc: Global, name: &Name, number: usize) -> Result<(), Refusal>
        requires absent { get_by_text self.old.numbers name.now ≡ None }
        requires number { number < WIDTH }
        ensures put { OnOk result ((other : Bytes) → get_by_text self.new.numbers other ≡ update bytes_eq (get_by_text self.old.numbers) name.now (Some number) other) }
        ensures same { OnErr result ((other : Bytes) → get_by_text self.new.numbers other ≡ get_by_text self.old.numbers other) }
        ensures seed { hasher_of self.new.numbers ≡ hasher_of self.old.numbers }
        ensures cause { IfErr result (λ refusal. refusal ≡ Refusal.Memory) }
    {
        let key = String::from_str(alloc, name.as_str())?;
        let copy = name.copy(alloc)?;
        reach_name(&mut self.names, number)?;
        reach_guess(&mut self.guesses, name.fingerprint())?;
        self.numbers.insert(key, number)?;
        set_name(&mut self.names, number, copy);
        set_guess(&mut self.guesses, name.fingerprint(), number);
        Ok(())
    }

    /// Takes the name out of the table. The result is its number, if it had one.
    pub fn take(&mut self, name: &Name) -> Option<usize>
        ensures number { result ≡ get_by_text self.old.numbers name.now }
        ensures taken { (other : Bytes) → get_by_text self.new.numbers other ≡ update bytes_eq (get_by_text self.old.numbers) name.now None other }
        ensures seed { hasher_of self.new.numbers ≡ hasher_of self.old.numbers }
    {
        let number = self.number(name)?;
        clear_name(&mut self.names, number);
        self.numbers.remove(name.as_str())
    }
}

// Whether the name is the one of this number.
fn is_at(names: &[Option<Name>], number: usize, name: &Name) -> bool
    ensures { IsTrue result → slice_get names.now number ≡ Some (Some name.now) }
{
    match names.get(number) {
        Some(Some(other)) => *other == *name,
        _ => false,
    }
}

// Appends numbers without a name until there is this one.
fn reach_name(names: &mut Vec<Option<Name>>, number: usize) -> Result<(), Refusal>
    ensures within { OnOk result (number < vec_len names.new) }
    ensures same { (n : ℕ) (name : Bytes) → slice_get names.new.items n ≡ Some (Some name) → slice_get names.old.items n ≡ Some (Some name) }
    ensures cause { IfErr result (λ refusal. refusal ≡ Refusal.Memory) }
{
    while names.len() <= number {
        names.push(None)?;
    }
    Ok(())
}

// Makes the name that of the number.
fn set_name(names: &mut Vec<Option<Name>>, number: usize, name: Name)
    requires { number < vec_len names.old }
    ensures { (n : ℕ) (other : Bytes) → slice_get names.new.items n ≡ Some (Some other) → ((n ≡ number) × (other ≡ name)) ⊎ (slice_get names.old.items n ≡ Some (Some other)) }
{
    names[number] = Some(name);
}

// Removes the name of the number.
fn clear_name(names: &mut Vec<Option<Name>>, number: usize)
    ensures { (n : ℕ) (name : Bytes) → slice_get names.new.items n ≡ Some (Some name) → (n ≢ number) × (slice_get names.old.items n ≡ Some (Some name)) }
{
    if number < names.len() {
        names[number] = None;
    }
}

// The guess at this place, or `NEVER` if there is none.
fn guess_at(guesses: &[u16], place: usize) -> u16
    ensures { result ≡ get_or guesses.now place NEVER }
{
    match guesses.get(place) {
        Some(guess) => *guess,
        None => NEVER,
    }
}

// Appends guesses of no name until there is one at this place.
fn reach_guess(guesses: &mut Vec<u16>, place: usize) -> Result<(), Refusal>
    ensures within { OnOk result (place < vec_len guesses.new) }
    ensures same { (n : ℕ) → get_or guesses.new.items n NEVER ≡ get_or guesses.old.items n NEVER }
    ensures cause { IfErr result (λ refusal. refusal ≡ Refusal.Memory) }
{
    while guesses.len() <= place {
        guesses.push(NEVER)?;
    }
    Ok(())
}

// Makes the number the guess at this place.
fn set_guess(guesses: &mut Vec<u16>, place: usize, number: usize)
    requires place { place < vec_len guesses.old }
    requires number { number < WIDTH }
    ensures here { get_or guesses.new.items place NEVER ≡ number }
    ensures others { (n : ℕ) → n ≢ place → get_or guesses.new.items n NEVER ≡ get_or guesses.old.items n NEVER }
{
    guesses[place] = number as u16;
}
