// The parts of an and-inverter graph.
ghost use Rattle.std.specs.Prelude.{◌≡◌, Bool, not, ◌||◌, List};
ghost use Rattle.sva.specs.Trace.{Trace};
ghost use Rattle.gates.specs.Graph.{literal_truth, gate_truth, positive, opposite as opposite_of};
ghost use Rattle.gates.specs.Lists.{gate as gate_of};

// What a literal speaks of.
#[derive(Clone, Copy, PartialEq, Eq, Debug)]
pub enum Variable {
    // What is never true.
    False,
    // A signal in a cycle.
    Atom { signal: u8, cycle: u64 },
    // A gate, by its place in the list: gates share operands, and solvers take a list.
    Gate { place: u32 },
}

// A variable or its negation.
#[derive(Clone, Copy, PartialEq, Eq, Debug)]
pub struct Literal {
    pub variable: Variable,
    pub negated: bool,
}

impl Literal {
    // The literal of the opposite truth.
    pub fn opposite(self) -> Literal
        ensures value { result ≡ opposite_of self }
        ensures truth { (τ : Trace) (gates : List Bool) → literal_truth τ gates result ≡ not (literal_truth τ gates self) }
    {
        Literal {
            negated: !self.negated,
            ..self
        }
    }
}

// The literal that is true where the variable is.
impl From<Variable> for Literal {
    ghost from_gives = { λ variable r. r ≡ positive variable };

    fn from(variable: Variable) -> Literal {
        Literal {
            variable,
            negated: false,
        }
    }
}

// True where both its literals are.
#[derive(Clone, Copy, PartialEq, Eq, Debug)]
pub struct Gate {
    pub left: Literal,
    pub right: Literal,
}

// The gate that is true where neither literal is.
pub(crate) fn neither(a: Literal, b: Literal) -> Gate
    ensures value { result ≡ gate_of (opposite_of a) (opposite_of b) }
    ensures truth { (τ : Trace) (gates : List Bool) → gate_truth τ gates result ≡ not (literal_truth τ gates a || literal_truth τ gates b) }
{
    Gate {
        left: a.opposite(),
        right: b.opposite(),
    }
}
