#![tactic(auto)]

// Every refusal of the monitor and the unroller, by the layer that gives it.
//
// A refusal has a number, a place and a layer, and keeps them through every caller. `refusal_of` in
// specs/Refusals.antt says them for each case; docs/refusals.md has the same list in words.
ghost use Rattle.std.specs.Prelude.{◌≡◌, Some};
ghost use Rattle.fault.specs.Refusals.{refusal_of, refusal_text};
ghost use Rattle.fault.specs.declared.Fault.TheVariants.{Table as OfTable, Row as OfRow, Block as OfBlock, Unroll as OfUnroll, Domain as OfDomain, Report as OfReport};

use std::fmt;
use thiserror::Error;

// Why bytes are not a table. A case that lies at a node has that node's number.
#[derive(Clone, Copy, PartialEq, Eq, Debug, Error)]
pub enum TableFault {
    #[error("the table is not 16 bytes and 8 for each node, or has no node or more than 32")]
    Length,
    #[error("the header's signal count is not 1 to 64, its row ceiling not 1 to 2^40, or a byte from 2 to 7 is set")]
    Header,
    #[error("the kind is unknown, or a byte is set that this kind does not use")]
    Form { node: u8 },
    #[error("an operand is not the number of an earlier node")]
    Operand { node: u8 },
    #[error("an operand is a sequence or a property where this kind does not take one")]
    Class { node: u8 },
    #[error("a number is out of its range")]
    Range { node: u8 },
    #[error("the lengths of the operands leave no match")]
    Lengths { node: u8 },
    #[error("a sequence that may match no cycle at all stands for a property")]
    Empty { node: u8 },
    #[error("a match may be longer than 32 cycles, the lookback is above 32, or the horizon above 31")]
    Limit { node: u8 },
}

// Why a row is not taken.
#[derive(Clone, Copy, PartialEq, Eq, Debug, Error)]
pub enum RowFault {
    #[error("a row has a signal set that the table does not count")]
    Signal { cycle: u64 },
    #[error("the scratch is too short")]
    Scratch { wanted: usize },
    #[error("the rows would pass the table's row ceiling")]
    Ceiling { ceiling: u64 },
}

// Why a block is not taken, beside what is wrong with one of its rows.
#[derive(Clone, Copy, PartialEq, Eq, Debug, Error)]
pub enum BlockFault {
    #[error("the block is not 512 bytes long")]
    Size { blocks: u64 },
    #[error("the block's check word is not that of its bytes")]
    CheckWord { blocks: u64 },
    #[error("the block's row count, signal count or a byte that has to be zero is wrong")]
    Field { blocks: u64 },
    #[error("the scratch is too short")]
    Scratch { wanted: usize },
    #[error("the list for failed starts is too short")]
    FailedList { wanted: usize },
    #[error("the block's number is not the next one")]
    Number { blocks: u64 },
}

// Why a start is not unrolled.
#[derive(Clone, Copy, PartialEq, Eq, Debug, Error)]
pub enum UnrollFault {
    #[error("the scratch is too short")]
    Scratch { wanted: usize },
    #[error("the start is above 2^40")]
    Start,
    #[error("the domain does not hold a cycle of the start's span")]
    Cycle { cycle: u64 },
}

// Why a Boolean domain does not do an operation.
#[derive(Clone, Copy, PartialEq, Eq, Debug, Error)]
pub enum DomainFault {
    #[error("the domain has no free place")]
    Full,
    #[error("a value was not issued by the domain")]
    NotIssued,
    #[error("the atom's signal is above 63, or its cycle is not held")]
    Atom,
}

// Why a report is not written.
#[derive(Clone, Copy, PartialEq, Eq, Debug, Error)]
pub enum ReportFault {
    #[error("the buffer for the report is too short")]
    Buffer { wanted: usize },
}

// A refusal of any layer.
#[derive(Clone, Copy, PartialEq, Eq, Debug, Error)]
pub enum Fault {
    #[error(transparent)]
    Table(TableFault),
    #[error(transparent)]
    Row(RowFault),
    #[error(transparent)]
    Block(BlockFault),
    #[error(transparent)]
    Unroll(UnrollFault),
    #[error(transparent)]
    Domain(DomainFault),
    #[error(transparent)]
    Report(ReportFault),
}

#[derive(Clone, Copy, PartialEq, Eq, Debug)]
pub enum Layer {
    Table,
    Row,
    Block,
    Unroll,
    Domain,
    Report,
}

// What is told of a refusal. Outside it is known by its number; code passes the enum.
#[derive(Clone, Copy, PartialEq, Eq, Debug)]
pub struct Refusal {
    pub layer: Layer,
    pub number: u8,
    pub place: u64,
}

// The words `refused N P`, where a program tells the number.
impl fmt::Display for Refusal {
    ghost output = { λ r. Some (refusal_text r) };

    fn fmt<W: fmt::Write>(&self, f: &mut fmt::Formatter<W>) -> fmt::Result {
        write!(f, "refused {} {}", self.number, self.place)
    }
}

impl Fault {
    pub fn number(&self) -> u8
        ensures { result ≡ (refusal_of self.now).number }
    {
        match *self {
            Fault::Table(fault) => match fault {
                TableFault::Length => 1,
                TableFault::Header => 2,
                TableFault::Form { .. } => 3,
                TableFault::Operand { .. } => 4,
                TableFault::Class { .. } => 5,
                TableFault::Range { .. } => 6,
                TableFault::Lengths { .. } => 7,
                TableFault::Empty { .. } => 8,
                TableFault::Limit { .. } => 9,
            },
            Fault::Row(fault) => match fault {
                RowFault::Signal { .. } => 10,
                RowFault::Scratch { .. } => 14,
                RowFault::Ceiling { .. } => 21,
            },
            Fault::Block(fault) => match fault {
                BlockFault::Size { .. } => 11,
                BlockFault::CheckWord { .. } => 12,
                BlockFault::Field { .. } => 13,
                BlockFault::Scratch { .. } => 14,
                BlockFault::FailedList { .. } => 15,
                BlockFault::Number { .. } => 22,
            },
            Fault::Unroll(fault) => match fault {
                UnrollFault::Scratch { .. } => 14,
                UnrollFault::Start => 16,
                UnrollFault::Cycle { .. } => 23,
            },
            Fault::Domain(fault) => match fault {
                DomainFault::Full => 24,
                DomainFault::NotIssued => 25,
                DomainFault::Atom => 26,
            },
            Fault::Report(ReportFault::Buffer { .. }) => 15,
        }
    }

    pub fn place(&self) -> u64
        ensures { result ≡ (refusal_of self.now).place }
    {
        match *self {
            Fault::Table(fault) => match fault {
                TableFault::Length | TableFault::Header => 0,
                TableFault::Form { node }
                | TableFault::Operand { node }
                | TableFault::Class { node }
                | TableFault::Range { node }
                | TableFault::Lengths { node }
                | TableFault::Empty { node }
                | TableFault::Limit { node } => node as u64,
            },
            Fault::Row(fault) => match fault {
                RowFault::Signal { cycle } => cycle,
                RowFault::Scratch { wanted } => wanted as u64,
                RowFault::Ceiling { ceiling } => ceiling,
            },
            Fault::Block(fault) => match fault {
                BlockFault::Size { blocks }
                | BlockFault::CheckWord { blocks }
                | BlockFault::Field { blocks }
                | BlockFault::Number { blocks } => blocks,
                BlockFault::Scratch { wanted } | BlockFault::FailedList { wanted } => wanted as u64,
            },
            Fault::Unroll(fault) => match fault {
                UnrollFault::Scratch { wanted } => wanted as u64,
                UnrollFault::Start => 0,
                UnrollFault::Cycle { cycle } => cycle,
            },
            Fault::Domain(_) => 0,
            Fault::Report(ReportFault::Buffer { wanted }) => wanted as u64,
        }
    }

    pub fn layer(&self) -> Layer
        ensures { result ≡ (refusal_of self.now).layer }
    {
        match *self {
            Fault::Table(_) => Layer::Table,
            Fault::Row(_) => Layer::Row,
            Fault::Block(_) => Layer::Block,
            Fault::Unroll(_) => Layer::Unroll,
            Fault::Domain(_) => Layer::Domain,
            Fault::Report(_) => Layer::Report,
        }
    }

    // All that is told of a refusal. No other fault is told the same.
    pub fn refusal(&self) -> Refusal
        ensures value { result ≡ refusal_of self.now }
        ensures only { (other : Fault) → refusal_of other ≡ result → other ≡ self.now }
    {
        Refusal {
            layer: self.layer(),
            number: self.number(),
            place: self.place(),
        }
    }
}

// By hand, since these promise that the case is kept: the derive's `From` promises nothing, and a macro
// writes no ghost member.
impl From<TableFault> for Fault {
    ghost from_gives = { λ fault r. r ≡ OfTable fault };

    fn from(fault: TableFault) -> Fault {
        Fault::Table(fault)
    }
}

impl From<RowFault> for Fault {
    ghost from_gives = { λ fault r. r ≡ OfRow fault };

    fn from(fault: RowFault) -> Fault {
        Fault::Row(fault)
    }
}

impl From<BlockFault> for Fault {
    ghost from_gives = { λ fault r. r ≡ OfBlock fault };

    fn from(fault: BlockFault) -> Fault {
        Fault::Block(fault)
    }
}

impl From<UnrollFault> for Fault {
    ghost from_gives = { λ fault r. r ≡ OfUnroll fault };

    fn from(fault: UnrollFault) -> Fault {
        Fault::Unroll(fault)
    }
}

impl From<DomainFault> for Fault {
    ghost from_gives = { λ fault r. r ≡ OfDomain fault };

    fn from(fault: DomainFault) -> Fault {
        Fault::Domain(fault)
    }
}

impl From<ReportFault> for Fault {
    ghost from_gives = { λ fault r. r ≡ OfReport fault };

    fn from(fault: ReportFault) -> Fault {
        Fault::Report(fault)
    }
}
