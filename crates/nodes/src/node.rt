// A node of a table and what is known of it.
//
// An operand `a` or `b` is the number of an earlier node, as in a table's bytes: nodes share operands, and
// their memory is fixed. `m` and `n` are numbers of the node itself.

// A Boolean expression over the signals of one cycle.
#[derive(Clone, Copy, PartialEq, Eq, Debug)]
pub enum BooleanNode {
    Constant { value: bool },
    Signal { m: u8 },
    Not { a: u8 },
    And { a: u8, b: u8 },
    Or { a: u8, b: u8 },
    Past { a: u8, m: u8 },
}

#[derive(Clone, Copy, PartialEq, Eq, Debug)]
pub enum SequenceNode {
    Delay { a: u8, b: u8, m: u8, n: u8 },
    Fusion { a: u8, b: u8 },
    Repeat { a: u8, m: u8, n: u8 },
    Or { a: u8, b: u8 },
    Intersect { a: u8, b: u8 },
    And { a: u8, b: u8 },
    Throughout { a: u8, b: u8 },
    Within { a: u8, b: u8 },
    FirstMatch { a: u8 },
}

#[derive(Clone, Copy, PartialEq, Eq, Debug)]
pub enum PropertyNode {
    Not { a: u8 },
    Or { a: u8, b: u8 },
    And { a: u8, b: u8 },
    Implies { a: u8, b: u8 },
    ImpliesNext { a: u8, b: u8 },
    Nexttime { a: u8, m: u8 },
    Always { a: u8, m: u8, n: u8 },
    Eventually { a: u8, m: u8, n: u8 },
}

#[derive(Clone, Copy, PartialEq, Eq, Debug)]
pub enum Node {
    Boolean(BooleanNode),
    Sequence(SequenceNode),
    Property(PropertyNode),
}

// A Boolean may stand for a sequence, and a sequence for a property: a class for itself and for each
// that is greater.
#[derive(Clone, Copy, PartialEq, Eq, PartialOrd, Ord, Debug)]
pub enum Class {
    Boolean,
    Sequence,
    Property,
}

// The class of a node, its shortest and longest length (0 for a property), its horizon and lookback. One
// struct for all classes: a Boolean that stands for a sequence has lengths, and a sequence that stands
// for a property has a horizon.
#[derive(Clone, Copy, PartialEq, Eq, Debug)]
pub struct Facts {
    pub class: Class,
    pub lo: u16,
    pub hi: u16,
    pub horizon: u16,
    pub lookback: u16,
}

// What is answered for a node that is not there, as in the definitions (`no_facts`): with an `Option` each
// rule would ask once more what the first rule has asked.
pub(crate) const UNKNOWN: Facts = Facts {
    class: Class::Boolean,
    lo: 0,
    hi: 0,
    horizon: 0,
    lookback: 0,
};

// An operand, and the class that it is taken as.
#[derive(Clone, Copy, PartialEq, Eq, Debug)]
pub struct Operand {
    pub node: u8,
    pub role: Class,
}

// The operands of a node.
#[derive(Clone, Copy, PartialEq, Eq, Debug)]
pub struct Operands {
    pub a: Option<Operand>,
    pub b: Option<Operand>,
}
