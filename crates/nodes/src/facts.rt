// What is known of a node, from what is known of the earlier ones.
ghost use Rattle.std.specs.Prelude.{◌≡◌};
ghost use Rattle.nodes.specs.Lists.{known_of};
ghost use Rattle.nodes.specs.Steps.{back, boolean_step, sequence_step, property_step, facts_step};
ghost use Rattle.nodes.specs.Trees.{boolean_facts, sequence_facts, property_facts};

use crate::list::Nodes;
use crate::node::{BooleanNode, Class, Facts, Node, PropertyNode, SequenceNode};

impl Facts {
    fn boolean(lookback: u16) -> Facts
        ensures { result ≡ boolean_facts lookback }
    {
        Facts {
            class: Class::Boolean,
            lo: 1,
            hi: 1,
            horizon: 0,
            lookback,
        }
    }

    fn sequence(lo: u16, hi: u16, lookback: u16) -> Facts
        ensures { result ≡ sequence_facts lo hi lookback }
    {
        Facts {
            class: Class::Sequence,
            lo,
            hi,
            horizon: hi.saturating_sub(1),
            lookback,
        }
    }

    fn property(horizon: u16, lookback: u16) -> Facts
        ensures { result ≡ property_facts horizon lookback }
    {
        Facts {
            class: Class::Property,
            lo: 0,
            hi: 0,
            horizon,
            lookback,
        }
    }
}

impl Nodes {
    // The larger lookback of two nodes.
    fn back(&self, a: u8, b: u8) -> u16
        ensures { result ≡ back (known_of self.now) a b }
    {
        self.known(a).lookback.max(self.known(b).lookback)
    }

    // How far back a Boolean looks.
    fn boolean_lookback(&self, node: BooleanNode) -> u16
        ensures { result ≡ boolean_step (known_of self.now) node }
    {
        match node {
            BooleanNode::Constant { .. } | BooleanNode::Signal { .. } => 0,
            BooleanNode::Not { a } => self.known(a).lookback,
            BooleanNode::And { a, b } | BooleanNode::Or { a, b } => self.back(a, b),
            BooleanNode::Past { a, m } => self.known(a).lookback + m as u16,
        }
    }

    fn sequence_facts(&self, node: SequenceNode) -> Facts
        ensures { result ≡ sequence_step (known_of self.now) node }
    {
        match node {
            SequenceNode::Delay { a, b, m, n } => {
                let (x, y) = (self.known(a), self.known(b));
                Facts::sequence(
                    x.lo + y.lo + (m as u16).saturating_sub(1),
                    x.hi + y.hi + (n as u16).saturating_sub(1),
                    self.back(a, b),
                )
            }
            SequenceNode::Fusion { a, b } => {
                let (x, y) = (self.known(a), self.known(b));
                Facts::sequence(
                    x.lo.max(1) + y.lo.max(1) - 1,
                    (x.hi + y.hi).saturating_sub(1),
                    self.back(a, b),
                )
            }
            SequenceNode::Repeat { a, m, n } => {
                let x = self.known(a);
                Facts::sequence(m as u16 * x.lo, n as u16 * x.hi, x.lookback)
            }
            SequenceNode::Or { a, b } => {
                let (x, y) = (self.known(a), self.known(b));
                Facts::sequence(x.lo.min(y.lo), x.hi.max(y.hi), self.back(a, b))
            }
            SequenceNode::Intersect { a, b } => {
                let (x, y) = (self.known(a), self.known(b));
                Facts::sequence(x.lo.max(y.lo), x.hi.min(y.hi), self.back(a, b))
            }
            SequenceNode::And { a, b } => {
                let (x, y) = (self.known(a), self.known(b));
                Facts::sequence(x.lo.max(y.lo), x.hi.max(y.hi), self.back(a, b))
            }
            SequenceNode::Throughout { a, b } => {
                let (x, y) = (self.known(a), self.known(b));
                Facts::sequence(y.lo, y.hi, self.back(a, b))
            }
            SequenceNode::Within { a, b } => {
                let (x, y) = (self.known(a), self.known(b));
                Facts::sequence(x.lo.max(y.lo), y.hi, self.back(a, b))
            }
            SequenceNode::FirstMatch { a } => {
                let x = self.known(a);
                Facts::sequence(x.lo, x.hi, x.lookback)
            }
        }
    }

    fn property_facts(&self, node: PropertyNode) -> Facts
        ensures { result ≡ property_step (known_of self.now) node }
    {
        match node {
            PropertyNode::Not { a } => {
                let x = self.known(a);
                Facts::property(x.horizon, x.lookback)
            }
            PropertyNode::Or { a, b } | PropertyNode::And { a, b } => {
                let (x, y) = (self.known(a), self.known(b));
                Facts::property(x.horizon.max(y.horizon), self.back(a, b))
            }
            PropertyNode::Implies { a, b } => {
                let (x, y) = (self.known(a), self.known(b));
                Facts::property(x.hi.saturating_sub(1) + y.horizon, self.back(a, b))
            }
            PropertyNode::ImpliesNext { a, b } => {
                let (x, y) = (self.known(a), self.known(b));
                Facts::property(x.hi + y.horizon, self.back(a, b))
            }
            PropertyNode::Nexttime { a, m } => {
                let x = self.known(a);
                Facts::property(m as u16 + x.horizon, x.lookback)
            }
            PropertyNode::Always { a, n, .. } | PropertyNode::Eventually { a, n, .. } => {
                let x = self.known(a);
                Facts::property(n as u16 + x.horizon, x.lookback)
            }
        }
    }

    // What would be known of a node behind these. No sum overflows, whatever the node's numbers are.
    pub(crate) fn next_facts(&self, node: Node) -> Facts
        ensures { result ≡ facts_step (known_of self.now) node }
    {
        match node {
            Node::Boolean(node) => Facts::boolean(self.boolean_lookback(node)),
            Node::Sequence(node) => self.sequence_facts(node),
            Node::Property(node) => self.property_facts(node),
        }
    }
}
