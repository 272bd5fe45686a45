// What can be done with a list of gates: make one, walk it, and use it as a domain.
ghost use Rattle.std.specs.Prelude.{◌≡◌, ◌-◌, ◌^◌, true, false, IfOk};
ghost use Rattle.sva.specs.Trace.{Trace};
ghost use Rattle.domain.specs.Operations.{Answered, And, Atom, Not, Or};
ghost use Rattle.gates.specs.Graph.{gate_truth, truths, constant_literal, atom_literal, opposite as opposite_of, IsGraph};
ghost use Rattle.gates.specs.Lists.{Fresh, gate_list, meaning_of, gate as gate_of, Gives, Appends};
ghost use Rattle.gates.specs.Steps.{gate_rules, Placed};

use crate::gate::{Gate, Literal, Variable, neither};
use crate::list::Gates;
use domain::{Domain, Lattice};
use fault::DomainFault;
use std::alloc::{AllocError, Global};

// No more gates than these are ever used: 2^32.
const MOST_PLACES: usize = 1 << 32;

impl Gates {
    // An empty list for so many gates.
    pub fn new(heap: Global, length: usize) -> Result<Gates, AllocError>
        ensures { IfOk result (Fresh length) }
    {
        let gates = Vec::with_capacity(heap, length.min(MOST_PLACES))?;
        Ok(Gates { gates })
    }

    // The gates, in their order: each is true exactly where both its literals are, and these speak
    // of no gate but earlier ones.
    pub fn gates(&self) -> &[Gate]
        ensures value { result.now ≡ gate_list self.now }
        ensures graph { IsGraph result.now }
    {
        self.gates.as_slice()
    }

    // How many places are free.
    pub fn free(&self) -> usize
        ensures { result ≡ (meaning_of self.now).free }
    {
        self.gates.capacity() - self.gates.len()
    }

    // The place of one more gate, or why it gets none.
    fn next_place(&self, gate: Gate) -> Result<u32, DomainFault>
        ensures { Placed self.now gate result }
    {
        if !self.issued(gate.left) || !self.issued(gate.right) {
            return Err(DomainFault::NotIssued);
        }
        if self.free() == 0 {
            return Err(DomainFault::Full);
        }
        Ok(self.gates.len() as u32)
    }

    // One gate more.
    fn push(&mut self, gate: Gate) -> Result<Literal, DomainFault>
        ensures answer { Answered (meaning_of self.old) (meaning_of self.new) (gate_rules self.old gate) (λ τ. gate_truth τ (truths τ (gate_list self.old)) gate) result }
        ensures appends { Appends self.old self.new gate false result }
    {
        let place = self.next_place(gate)?;
        self.gates.push_reserved(gate);
        Ok(Literal::from(Variable::Gate { place }))
    }
}

impl Lattice for Gates {
    type Value = Literal;

    // No cycle behind this one is held: 2^41 - 1.
    const LAST_CYCLE: u64 = (1 << 41) - 1;

    ghost Reading = { Trace };

    ghost meaning = { meaning_of };

    ghost fixed = { constant_literal };

    ghost last = { 2 ^ 41 - 1 };

    fn largest_cycle() -> u64 {
        Self::LAST_CYCLE
    }

    fn first_cycle(&self) -> u64 {
        0
    }

    fn cycle_count(&self) -> u64 {
        Self::LAST_CYCLE + 1
    }

    fn issued(&self, a: Literal) -> bool {
        match a.variable {
            Variable::False => true,
            Variable::Atom { signal, cycle } => signal <= 63 && cycle <= Self::LAST_CYCLE,
            Variable::Gate { place } => (place as usize) < self.gates.len(),
        }
    }

    fn constant(&self, truth: bool) -> Literal {
        Literal {
            variable: Variable::False,
            negated: truth,
        }
    }

    // An atom is a literal by itself: it takes no place.
    fn atom(&mut self, signal: u8, cycle: u64) -> Result<Literal, DomainFault>
        ensures answer { Atom (meaning_of self.old) (meaning_of self.new) signal cycle result }
        ensures gives { Gives self.old self.new (atom_literal signal cycle) result }
    {
        let atom = Literal::from(Variable::Atom { signal, cycle });
        if !self.issued(atom) {
            return Err(DomainFault::Atom);
        }
        Ok(atom)
    }

    fn and(&mut self, a: Literal, b: Literal) -> Result<Literal, DomainFault>
        ensures answer { And (meaning_of self.old) (meaning_of self.new) a b result }
        ensures appends { Appends self.old self.new (gate_of a b) false result }
    {
        self.push(Gate { left: a, right: b })
    }

    // Not neither.
    fn or(&mut self, a: Literal, b: Literal) -> Result<Literal, DomainFault>
        ensures answer { Or (meaning_of self.old) (meaning_of self.new) a b result }
        ensures appends { Appends self.old self.new (gate_of (opposite_of a) (opposite_of b)) true result }
    {
        let nor = self.push(neither(a, b))?;
        Ok(nor.opposite())
    }
}

impl Domain for Gates {
    // The opposite literal: it takes no place.
    fn not(&mut self, a: Literal) -> Result<Literal, DomainFault>
        ensures answer { Not (meaning_of self.old) (meaning_of self.new) a result }
        ensures gives { Gives self.old self.new (opposite_of a) result }
    {
        if !self.issued(a) {
            return Err(DomainFault::NotIssued);
        }
        Ok(a.opposite())
    }
}
