// How nodes are written for a reader: by hand, since a derive of messages makes errors, and nodes are none.
use nodes::node::{BooleanNode, Class, Facts, Node, PropertyNode, SequenceNode};
use std::fmt;

// A node in the words of SystemVerilog, with its operands as n0, n1 and so on.
#[derive(Clone, Copy)]
pub struct Form(pub Node);

impl fmt::Display for Form {
    fn fmt<W: fmt::Write>(&self, f: &mut fmt::Formatter<W>) -> fmt::Result {
        match self.0 {
            Node::Boolean(node) => boolean(node, f),
            Node::Sequence(node) => sequence(node, f),
            Node::Property(node) => property(node, f),
        }
    }
}

fn boolean<W: fmt::Write>(node: BooleanNode, f: &mut fmt::Formatter<W>) -> fmt::Result {
    match node {
        BooleanNode::Constant { value } => f.write_str(if value { "1'b1" } else { "1'b0" }),
        BooleanNode::Signal { m } => write!(f, "signal {m}"),
        BooleanNode::Not { a } => write!(f, "!n{a}"),
        BooleanNode::And { a, b } => write!(f, "n{a} && n{b}"),
        BooleanNode::Or { a, b } => write!(f, "n{a} || n{b}"),
        BooleanNode::Past { a, m } => write!(f, "past(n{a}, {m})"),
    }
}

fn sequence<W: fmt::Write>(node: SequenceNode, f: &mut fmt::Formatter<W>) -> fmt::Result {
    match node {
        SequenceNode::Delay { a, b, m, n } => write!(f, "n{a} ##[{m}:{n}] n{b}"),
        SequenceNode::Fusion { a, b } => write!(f, "n{a} ##0 n{b}"),
        SequenceNode::Repeat { a, m, n } => write!(f, "n{a}[*{m}:{n}]"),
        SequenceNode::Or { a, b } => write!(f, "n{a} or n{b}"),
        SequenceNode::Intersect { a, b } => write!(f, "n{a} intersect n{b}"),
        SequenceNode::And { a, b } => write!(f, "n{a} and n{b}"),
        SequenceNode::Throughout { a, b } => write!(f, "n{a} throughout n{b}"),
        SequenceNode::Within { a, b } => write!(f, "n{a} within n{b}"),
        SequenceNode::FirstMatch { a } => write!(f, "first_match(n{a})"),
    }
}

fn property<W: fmt::Write>(node: PropertyNode, f: &mut fmt::Formatter<W>) -> fmt::Result {
    match node {
        PropertyNode::Not { a } => write!(f, "not n{a}"),
        PropertyNode::Or { a, b } => write!(f, "n{a} or n{b}"),
        PropertyNode::And { a, b } => write!(f, "n{a} and n{b}"),
        PropertyNode::Implies { a, b } => write!(f, "n{a} |-> n{b}"),
        PropertyNode::ImpliesNext { a, b } => write!(f, "n{a} |=> n{b}"),
        PropertyNode::Nexttime { a, m } => write!(f, "nexttime[{m}] n{a}"),
        PropertyNode::Always { a, m, n } => write!(f, "always[{m}:{n}] n{a}"),
        PropertyNode::Eventually { a, m, n } => write!(f, "s_eventually[{m}:{n}] n{a}"),
    }
}

// The class of a node, and its lengths or its horizon; by hand, as above.
#[derive(Clone, Copy)]
pub struct Extent(pub Facts);

impl fmt::Display for Extent {
    fn fmt<W: fmt::Write>(&self, f: &mut fmt::Formatter<W>) -> fmt::Result {
        let Facts {
            class,
            lo,
            hi,
            horizon,
            ..
        } = self.0;
        match class {
            Class::Boolean => f.write_str("Boolean, 1 cycle"),
            Class::Sequence => write!(f, "sequence, {lo} to {hi} cycles"),
            Class::Property => write!(f, "property, horizon {horizon}"),
        }
    }
}
