// The rows domain: recorded rows from a first cycle on. A value is its truth in these rows.
ghost use Rattle.std.specs.Prelude.{◌≡◌, ◌-◌, ◌^◌};
ghost use Rattle.domain.specs.Operations.{And, Atom, Not, Or};
ghost use Rattle.domain.specs.Recorded.{rows_meaning, meaning_of, ReadsRows};

use crate::{Domain, Lattice};
use fault::DomainFault;

// Row `rows[i]` is cycle `first + i`; bit k of a row is signal k.
#[derive(Clone, Copy)]
pub struct Rows<'a> {
    first: u64,
    rows: &'a [u64],
}

impl<'a> Rows<'a> {
    pub fn new(first: u64, rows: &'a [u64]) -> Rows<'a>
        ensures value { meaning_of result ≡ rows_meaning first rows.now }
        ensures reads { ReadsRows first rows.now }
    {
        Rows { first, rows }
    }
}

// Each operation promises that the domain is as it was: a fact of two states, which no type can hold.
impl<'a> Lattice for Rows<'a> {
    type Value = bool;

    // Rows that would go on behind this cycle are not held at all: 2^41 - 1.
    const LAST_CYCLE: u64 = (1 << 41) - 1;

    ghost Reading = { Unit {0} };

    ghost meaning = { meaning_of };

    ghost fixed = { λ b. b };

    ghost last = { 2 ^ 41 - 1 };

    fn largest_cycle() -> u64
        ensures { result ≡ 2 ^ 41 - 1 }
    {
        Self::LAST_CYCLE
    }

    fn first_cycle(&self) -> u64 {
        self.first
    }

    fn cycle_count(&self) -> u64 {
        let rows = self.rows.len() as u64;
        match self.first.checked_add(rows) {
            Some(end) if end <= Self::LAST_CYCLE + 1 => rows,
            _ => 0,
        }
    }

    fn issued(&self, _a: bool) -> bool {
        true
    }

    fn constant(&self, truth: bool) -> bool {
        truth
    }

    fn atom(&mut self, signal: u8, cycle: u64) -> Result<bool, DomainFault>
        ensures answer { Atom (meaning_of self.old) (meaning_of self.new) signal cycle result }
        ensures same { self.new ≡ self.old }
    {
        match cycle.checked_sub(self.first) {
            Some(place) if signal <= 63 && place < self.cycle_count() => {
                Ok((self.rows[place as usize] >> signal) % 2 == 1)
            }
            _ => Err(DomainFault::Atom),
        }
    }

    fn and(&mut self, a: bool, b: bool) -> Result<bool, DomainFault>
        ensures answer { And (meaning_of self.old) (meaning_of self.new) a b result }
        ensures same { self.new ≡ self.old }
    {
        Ok(a && b)
    }

    fn or(&mut self, a: bool, b: bool) -> Result<bool, DomainFault>
        ensures answer { Or (meaning_of self.old) (meaning_of self.new) a b result }
        ensures same { self.new ≡ self.old }
    {
        Ok(a || b)
    }
}

impl<'a> Domain for Rows<'a> {
    fn not(&mut self, a: bool) -> Result<bool, DomainFault>
        ensures answer { Not (meaning_of self.old) (meaning_of self.new) a result }
        ensures same { self.new ≡ self.old }
    {
        Ok(!a)
    }
}
