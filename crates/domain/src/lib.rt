#![tactic(auto)]

// Boolean domains. A domain issues values, each with a truth under each of its readings, and joins
// them by operations. Code that is generic over domains works out a truth over recorded rows and
// builds a formula for a solver by the same text and the same proof.
//
// specs/Meaning.antt says what a domain means, specs/Operations.antt what an operation answers, and
// docs/domains.md both in words.
pub mod laws;
pub mod rows;
pub mod slots;

ghost use Rattle.std.specs.Prelude.{◌≡◌, ℕ, Bool};
ghost use Rattle.domain.specs.Meaning.{Meaning, Denotes, EndsBy};
ghost use Rattle.domain.specs.Operations.{Atom, And, Or, Not};

use fault::DomainFault;

// The part of a domain that needs no negation: constants, atoms, and, or.
pub trait Lattice {
    type Value: Copy;

    // No cycle past this one is held.
    const LAST_CYCLE: u64;

    // The type of the readings.
    ghost Reading: { Type 0 };

    ghost meaning: { Self → Meaning Self.Value Reading };

    // The values of the two constants.
    ghost fixed: { Bool → Self.Value };

    // What LAST_CYCLE is. A ghost of the constant's own name gets no proof in an `impl` with a lifetime.
    ghost last: { ℕ };

    // LAST_CYCLE, told by a call so that it can be promised.
    fn largest_cycle() -> u64
        ensures { result ≡ last };

    // The first cycle held.
    fn first_cycle(&self) -> u64
        ensures { result ≡ (meaning self.now).frame.first };

    // How many cycles are held, from the first on.
    fn cycle_count(&self) -> u64
        ensures value { result ≡ (meaning self.now).frame.count }
        ensures ends { EndsBy last (meaning self.now).frame };

    // Whether a value is issued.
    fn issued(&self, a: Self::Value) -> bool
        ensures { result ≡ (meaning self.now).issued a };

    // The value that is always true, or never.
    fn constant(&self, truth: bool) -> Self::Value
        ensures value { result ≡ fixed truth }
        ensures denotes { Denotes (meaning self.now) result (λ _. truth) };

    // The value of a signal in a cycle. The two are operands of this call alone; a struct of both would be
    // made only to be taken apart.
    fn atom(&mut self, signal: u8, cycle: u64) -> Result<Self::Value, DomainFault>
        ensures { Atom (meaning self.old) (meaning self.new) signal cycle result };

    fn and(&mut self, a: Self::Value, b: Self::Value) -> Result<Self::Value, DomainFault>
        ensures { And (meaning self.old) (meaning self.new) a b result };

    fn or(&mut self, a: Self::Value, b: Self::Value) -> Result<Self::Value, DomainFault>
        ensures { Or (meaning self.old) (meaning self.new) a b result };
}

// A Boolean domain: a lattice with negation.
pub trait Domain: Lattice {
    fn not(&mut self, a: Self::Value) -> Result<Self::Value, DomainFault>
        ensures { Not (Self.meaning self.old) (Self.meaning self.new) a result };
}
