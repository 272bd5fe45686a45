// How eight bytes spell a node.
ghost use Rattle.std.specs.Prelude.{◌≡◌};
ghost use Rattle.fault.specs.First.{told};
ghost use Rattle.fault.specs.Refusals.{table_refusal};
ghost use Rattle.nodes.specs.Format.{node_from, spelled, boolean_from, sequence_from, property_from};

use crate::node::{BooleanNode, Node, PropertyNode, SequenceNode};
use fault::TableFault;

// The fields of a node: its kind, its operands and its numbers.
#[derive(Clone, Copy)]
pub(crate) struct Fields {
    pub(crate) kind: u8,
    pub(crate) a: u8,
    pub(crate) b: u8,
    pub(crate) m: u8,
    pub(crate) n: u8,
}

// What fields spell. A field that a kind does not use is zero. The number of a kind stands here alone,
// beside the node that it spells: an enum of kinds would list the nodes' names once more. `node` is no
// field, since it does not come from the bytes.
impl Fields {
    fn boolean(self, node: u8) -> Result<Node, TableFault>
        ensures { told table_refusal result ≡ boolean_from node self }
    {
        let Fields { kind, a, b, m, n } = self;
        match (kind, a, b, m, n) {
            (1, 0, 0, m, 0) if m > 1 => Err(TableFault::Range { node }),
            (1, 0, 0, m, 0) => Ok(Node::Boolean(BooleanNode::Constant { value: m == 1 })),
            (2, 0, 0, m, 0) => Ok(Node::Boolean(BooleanNode::Signal { m })),
            (3, a, 0, 0, 0) => Ok(Node::Boolean(BooleanNode::Not { a })),
            (4, a, b, 0, 0) => Ok(Node::Boolean(BooleanNode::And { a, b })),
            (5, a, b, 0, 0) => Ok(Node::Boolean(BooleanNode::Or { a, b })),
            (6, a, 0, m, 0) => Ok(Node::Boolean(BooleanNode::Past { a, m })),
            _ => Err(TableFault::Form { node }),
        }
    }

    fn sequence(self, node: u8) -> Result<Node, TableFault>
        ensures { told table_refusal result ≡ sequence_from node self }
    {
        let Fields { kind, a, b, m, n } = self;
        match (kind, a, b, m, n) {
            (16, a, b, m, n) => Ok(Node::Sequence(SequenceNode::Delay { a, b, m, n })),
            (17, a, b, 0, 0) => Ok(Node::Sequence(SequenceNode::Fusion { a, b })),
            (18, a, 0, m, n) => Ok(Node::Sequence(SequenceNode::Repeat { a, m, n })),
            (19, a, b, 0, 0) => Ok(Node::Sequence(SequenceNode::Or { a, b })),
            (20, a, b, 0, 0) => Ok(Node::Sequence(SequenceNode::Intersect { a, b })),
            (21, a, b, 0, 0) => Ok(Node::Sequence(SequenceNode::And { a, b })),
            (22, a, b, 0, 0) => Ok(Node::Sequence(SequenceNode::Throughout { a, b })),
            (23, a, b, 0, 0) => Ok(Node::Sequence(SequenceNode::Within { a, b })),
            (24, a, 0, 0, 0) => Ok(Node::Sequence(SequenceNode::FirstMatch { a })),
            _ => Err(TableFault::Form { node }),
        }
    }

    fn property(self, node: u8) -> Result<Node, TableFault>
        ensures { told table_refusal result ≡ property_from node self }
    {
        let Fields { kind, a, b, m, n } = self;
        match (kind, a, b, m, n) {
            (32, a, 0, 0, 0) => Ok(Node::Property(PropertyNode::Not { a })),
            (33, a, b, 0, 0) => Ok(Node::Property(PropertyNode::Or { a, b })),
            (34, a, b, 0, 0) => Ok(Node::Property(PropertyNode::And { a, b })),
            (35, a, b, 0, 0) => Ok(Node::Property(PropertyNode::Implies { a, b })),
            (36, a, b, 0, 0) => Ok(Node::Property(PropertyNode::ImpliesNext { a, b })),
            (38, a, 0, m, 0) => Ok(Node::Property(PropertyNode::Nexttime { a, m })),
            (39, a, 0, m, n) => Ok(Node::Property(PropertyNode::Always { a, m, n })),
            (40, a, 0, m, n) => Ok(Node::Property(PropertyNode::Eventually { a, m, n })),
            _ => Err(TableFault::Form { node }),
        }
    }

    // The node that the fields spell: kinds below 16 are Booleans, below 32 sequences.
    fn spell(self, node: u8) -> Result<Node, TableFault>
        ensures { told table_refusal result ≡ spelled node self }
    {
        if self.kind < 16 {
            self.boolean(node)
        } else if self.kind < 32 {
            self.sequence(node)
        } else {
            self.property(node)
        }
    }
}

// The node that eight bytes spell, or why they spell none; `node` is the number that it would have, which a
// `TryFrom` is not given.
pub fn decode(bytes: [u8; 8], node: u8) -> Result<Node, TableFault>
    ensures { told table_refusal result ≡ node_from node bytes }
{
    let [kind, a, b, 0, m, n, 0, 0] = bytes else {
        return Err(TableFault::Form { node });
    };
    Fields { kind, a, b, m, n }.spell(node)
}
