//! Sets of numbers that take little memory while they have few numbers.
ghost use Rattle.std.specs.Prelude.{◌≡◌, ◌≢◌, ◌↔◌, ◌<◌, ◌≤◌, ◌&&◌, not, ℕ, IsTrue, false, IfOk, IfErr, IfSome, IfNone, length, nat_lt, slice_index};
ghost use Rattle.std.specs.List.{list_any};
ghost use Rattle.bit_rows.specs.Rows.{has};
ghost use Rattle.bit_tables.specs.Tables.{holds, holds_without, is_at, is_in_row, is_one_of};

use bit_rows::{BitRow, WIDTH};
use rbac_sets::Refusal;
use std::alloc::{AllocError, Global};

// How many numbers a set has without memory of its own. Their places take no more memory than a pointer beside them.
const FEW: usize = 7;

// What a place without a number has.
const EMPTY: u16 = u16::MAX;

/// A set of numbers below `WIDTH`.
#[derive(Drop)]
pub enum Numbers {
    /// Seven places for numbers, in any order. A place without a number has one that is not below `WIDTH`.
    Few([u16; FEW]),
    /// One bit for each number.
    Many(Box<BitRow>),
}

impl Numbers {
    /// The empty set. It doesn't allocate.
    pub fn new() -> Numbers
        ensures { (n : ℕ) → holds result n ≡ false }
    {
        Numbers::Few([EMPTY; FEW])
    }

    /// Whether the number is in the set.
    pub fn has(&self, number: usize) -> bool
        ensures { result ≡ holds self.now number }
    {
        match self {
            Numbers::Few(places) => is_one_of(places, number),
            Numbers::Many(row) => row.has(number),
        }
    }

    /// Whether the set is empty.
    pub fn is_empty(&self) -> bool
        ensures empty { IsTrue result → (n : ℕ) → holds self.now n ≡ false }
        ensures some { result ≡ false → (n : ℕ) × IsTrue (holds self.now n) }
    {
        self.next(0).is_none()
    }

    /// The least number of the set that is at least `from`, or `None` if there is none.
    pub fn next(&self, from: usize) -> Option<usize>
        ensures some { IfSome result (λ n. (from ≤ n) × (n < WIDTH) × IsTrue (holds self.now n) × ((m : ℕ) → from ≤ m → m < n → holds self.now m ≡ false)) }
        ensures none { IfNone result ((n : ℕ) → from ≤ n → holds self.now n ≡ false) }
    {
        match self {
            Numbers::Few(places) => next_place(places, from),
            Numbers::Many(row) => row.next(from),
        }
    }

    /// Whether the number is in the set, and not in the row that is left out, if one is given.
    pub fn has_without(&self, number: usize, without: Option<&BitRow>) -> bool
        ensures { result ≡ holds_without self.now without.entry number }
    {
        self.has(number) && !is_in_row(without, number)
    }

    /// Whether the set and the row have a number in common that is not in the row that is left out, if one is given.
    pub fn meets_without(&self, row: &BitRow, without: Option<&BitRow>) -> bool
        ensures { IsTrue result ↔ ((n : ℕ) × IsTrue (has row.now n) × IsTrue (holds_without self.now without.entry n)) }
    {
        match self {
            Numbers::Few(places) => some_meets(places, row, without),
            Numbers::Many(numbers) => match without {
                Some(without) => numbers.meets_without(row, without),
                None => numbers.meets(row),
            },
        }
    }

    /// The set with the number.
    ///
    /// # Errors
    ///
    /// `Memory` if an allocation failed.
    pub fn with(self, alloc: Global, number: usize) -> Result<Numbers, Refusal>
        requires { number < WIDTH }
        ensures there { IfOk result (λ numbers. IsTrue (holds numbers number)) }
        ensures others { IfOk result (λ numbers. (n : ℕ) → n ≢ number → holds numbers n ≡ holds self n) }
        ensures cause { IfErr result (λ refusal. refusal ≡ Refusal.Memory) }
    {
        match self {
            Numbers::Few(places) => with_place(alloc, places, number),
            Numbers::Many(row) => {
                let mut row = row;
                row.put(number)?;
                Ok(Numbers::Many(row))
            }
        }
    }

    /// The set without the number. It doesn't allocate.
    pub fn without(self, number: usize) -> Numbers
        requires { number < WIDTH }
        ensures gone { holds result number ≡ false }
        ensures others { (n : ℕ) → n ≢ number → holds result n ≡ holds self n }
    {
        match self {
            Numbers::Few(places) => Numbers::Few(without_place(places, number)),
            Numbers::Many(row) => {
                let mut row = row;
                row.take(number);
                Numbers::Many(row)
            }
        }
    }
}

// Whether the row, if there is one, has the number.
fn is_in_row(row: Option<&BitRow>, number: usize) -> bool
    ensures { result ≡ is_in_row row.entry number }
{
    match row {
        Some(row) => row.has(number),
        None => false,
    }
}

// Whether the place has the number.
fn is_at(place: u16, number: usize) -> bool
    ensures { result ≡ is_at place number }
{
    number < WIDTH && place as usize == number
}

// Whether one of the places has the number.
fn is_one_of(places: &[u16], number: usize) -> bool
    ensures { result ≡ is_one_of places.now number }
{
    places.iter().any(|place| is_at(*place, number))
}

// The least number in the places that is at least `from`, or `None` if there is none.
fn next_place(places: &[u16], from: usize) -> Option<usize>
    ensures some { IfSome result (λ n. (from ≤ n) × (n < WIDTH) × IsTrue (is_one_of places.now n) × ((m : ℕ) → from ≤ m → m < n → is_one_of places.now m ≡ false)) }
    ensures none { IfNone result ((n : ℕ) → from ≤ n → is_one_of places.now n ≡ false) }
{
    let mut least = WIDTH;
    for place in places {
        let number = *place as usize;
        if from <= number && number < least {
            least = number;
        }
    }
    if least < WIDTH { Some(least) } else { None }
}

// Whether one of the places has a number of the row that is not in the one that is left out, if one is given.
fn some_meets(places: &[u16], row: &BitRow, without: Option<&BitRow>) -> bool
    ensures { result ≡ list_any (λ place. nat_lt place WIDTH && (has row.now place && not (is_in_row without.entry place))) places.now }
{
    places.iter().any(|place| is_common(*place, row, without))
}

// Whether the place has a number of the row that is not in the one that is left out, if one is given.
fn is_common(place: u16, row: &BitRow, without: Option<&BitRow>) -> bool
    ensures { result ≡ (nat_lt place WIDTH && (has row.now place && not (is_in_row without.entry place))) }
{
    let number = place as usize;
    number < WIDTH && row.has(number) && !is_in_row(without, number)
}

// The numbers in the places as a row.
fn row_of(alloc: Global, places: &[u16]) -> Result<BitRow, AllocError>
    ensures { IfOk result (λ row. (n : ℕ) → has row n ≡ is_one_of places.now n) }
{
    let mut row = BitRow::new(alloc);
    for place in places {
        let number = *place as usize;
        if number < WIDTH {
            row.put(number)?;
        }
    }
    Ok(row)
}

// The set of the numbers in the places and of this one.
fn with_place(alloc: Global, places: [u16; FEW], number: usize) -> Result<Numbers, Refusal>
    requires { number < WIDTH }
    ensures there { IfOk result (λ numbers. IsTrue (holds numbers number)) }
    ensures others { IfOk result (λ numbers. (n : ℕ) → n ≢ number → holds numbers n ≡ is_one_of places n) }
    ensures cause { IfErr result (λ refusal. refusal ≡ Refusal.Memory) }
{
    if is_one_of(&places, number) {
        return Ok(Numbers::Few(places));
    }
    if let Some(at) = empty_place(&places) {
        let mut places = places;
        places[at] = number as u16;
        return Ok(Numbers::Few(places));
    }
    let mut row = row_of(alloc, &places)?;
    row.put(number)?;
    Ok(Numbers::Many(Box::new(alloc, row)?))
}

// A place without a number, if one is found.
fn empty_place(places: &[u16]) -> Option<usize>
    ensures { IfSome result (λ at. (at < length places.now) × (WIDTH ≤ slice_index places.now at)) }
{
    for at in 0..places.len() {
        if places[at] as usize >= WIDTH {
            return Some(at);
        }
    }
    None
}

// The places without the number.
fn without_place(places: [u16; FEW], number: usize) -> [u16; FEW]
    ensures gone { is_one_of result number ≡ false }
    ensures others { (n : ℕ) → n ≢ number → is_one_of result n ≡ is_one_of places n }
{
    let mut places = places;
    for at in 0..FEW {
        if places[at] as usize == number {
            places[at] = EMPTY;
        }
    }
    places
}
