// The operands of each kind of node, and the class that each operand is taken as.
ghost use Rattle.std.specs.Prelude.{◌≡◌};
ghost use Rattle.nodes.specs.Rules.{operands as operands_of, boolean_operands, sequence_operands, property_operands, none as no_operand, one as one_operand, two as two_operands};

use crate::node::{BooleanNode, Class, Node, Operand, Operands, PropertyNode, SequenceNode};

impl Operands {
    fn none() -> Operands
        ensures { result ≡ no_operand }
    {
        Operands { a: None, b: None }
    }

    // A class and a number each, as the definition takes them: written out, an `Operand` is longer.
    fn one(role: Class, a: u8) -> Operands
        ensures { result ≡ one_operand role a }
    {
        let a = Operand { node: a, role };
        Operands {
            a: Some(a),
            b: None,
        }
    }

    fn two(first: Class, a: u8, second: Class, b: u8) -> Operands
        ensures { result ≡ two_operands first a second b }
    {
        let a = Operand {
            node: a,
            role: first,
        };
        let b = Operand {
            node: b,
            role: second,
        };
        Operands {
            a: Some(a),
            b: Some(b),
        }
    }
}

impl BooleanNode {
    fn operands(self) -> Operands
        ensures { result ≡ boolean_operands self }
    {
        match self {
            BooleanNode::Constant { .. } | BooleanNode::Signal { .. } => Operands::none(),
            BooleanNode::Not { a } | BooleanNode::Past { a, .. } => Operands::one(
                Class::Boolean,
                a,
            ),
            BooleanNode::And { a, b } | BooleanNode::Or { a, b } => {
                Operands::two(Class::Boolean, a, Class::Boolean, b)
            }
        }
    }
}

impl SequenceNode {
    fn operands(self) -> Operands
        ensures { result ≡ sequence_operands self }
    {
        match self {
            SequenceNode::Repeat { a, .. } | SequenceNode::FirstMatch { a } => {
                Operands::one(Class::Sequence, a)
            }
            SequenceNode::Throughout { a, b } => Operands::two(
                Class::Boolean,
                a,
                Class::Sequence,
                b,
            ),
            SequenceNode::Delay { a, b, .. }
            | SequenceNode::Fusion { a, b }
            | SequenceNode::Or { a, b }
            | SequenceNode::Intersect { a, b }
            | SequenceNode::And { a, b }
            | SequenceNode::Within { a, b } => Operands::two(
                Class::Sequence,
                a,
                Class::Sequence,
                b,
            ),
        }
    }
}

impl PropertyNode {
    fn operands(self) -> Operands
        ensures { result ≡ property_operands self }
    {
        match self {
            PropertyNode::Not { a }
            | PropertyNode::Nexttime { a, .. }
            | PropertyNode::Always { a, .. }
            | PropertyNode::Eventually { a, .. } => Operands::one(Class::Property, a),
            PropertyNode::Or { a, b } | PropertyNode::And { a, b } => {
                Operands::two(Class::Property, a, Class::Property, b)
            }
            PropertyNode::Implies { a, b } | PropertyNode::ImpliesNext { a, b } => {
                Operands::two(Class::Sequence, a, Class::Property, b)
            }
        }
    }
}

impl Node {
    pub(crate) fn operands(self) -> Operands
        ensures { result ≡ operands_of self }
    {
        match self {
            Node::Boolean(node) => node.operands(),
            Node::Sequence(node) => node.operands(),
            Node::Property(node) => node.operands(),
        }
    }
}
