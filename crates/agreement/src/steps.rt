// Expressions, as steps that any domain can follow.
use domain::Domain;
use domain::rows::Rows;
use fault::{DomainFault, Fault, Refusal};
use gates::gate::{Literal, Variable};
use gates::list::Gates;
use std::alloc::{AllocError, Global};
use std::num::ParseIntError;
use std::str::FromStr;
use thiserror::Error;

// A step is read from text and followed over two domains with values of two types, so it is no closure.
#[derive(Clone, Copy)]
pub enum Step {
    Constant(bool),
    Atom { signal: u8, cycle: u64 },
    Gate { place: u32 },
    Not,
    And,
    Or,
}

// Why an expression has no value.
#[derive(Clone, Copy, Debug, Error)]
pub enum Stop {
    #[error(transparent)]
    Refused(Refusal),
    // The steps are no expression, or name a gate where there is none.
    #[error("nothing")]
    Malformed,
    #[error("no memory")]
    NoMemory(#[from(alloc)] AllocError),
}

// By hand, since it keeps what is told of the fault.
impl From<DomainFault> for Stop {
    fn from(fault: DomainFault) -> Stop {
        Stop::Refused(Fault::from(fault).refusal())
    }
}

// A domain in which a value can be made up that it may not have issued.
pub trait Forge: Domain {
    fn forged(place: u32) -> Option<Self::Value>;
}

impl<'a> Forge for Rows<'a> {
    fn forged(_place: u32) -> Option<bool> {
        None
    }
}

impl Forge for Gates {
    fn forged(place: u32) -> Option<Literal> {
        Some(Literal::from(Variable::Gate { place }))
    }
}

// Why a text is no row or no step. An enum, and not an `anyhow::Error`, which is large: a result of that size
// would be passed on for each of them.
#[derive(Debug, Drop, Error)]
pub enum ParseError {
    #[error("a step is none")]
    Unknown,
    #[error("an atom has no cycle")]
    NoCycle,
    #[error(transparent)]
    Number(#[from] ParseIntError),
    #[error(transparent)]
    Memory(#[from(alloc)] AllocError),
}

// What stands behind the s of an atom: a part of a step, so no `FromStr` of it.
fn parse_atom(text: &str) -> Result<Step, ParseError> {
    let (signal, cycle) = text.split_once('@').ok_or(ParseError::NoCycle)?;
    Ok(Step::Atom {
        signal: signal.parse::<u8>()?,
        cycle: cycle.parse::<u64>()?,
    })
}

impl FromStr for Step {
    type Err = ParseError;

    fn from_str(text: &str) -> Result<Step, ParseError> {
        match text {
            "0" => Ok(Step::Constant(false)),
            "1" => Ok(Step::Constant(true)),
            "!" => Ok(Step::Not),
            "&" => Ok(Step::And),
            "|" => Ok(Step::Or),
            _ => match (text.strip_prefix('s'), text.strip_prefix('g')) {
                (Some(atom), _) => parse_atom(atom),
                (None, Some(place)) => Ok(Step::Gate {
                    place: place.parse::<u32>()?,
                }),
                (None, None) => Err(ParseError::Unknown),
            },
        }
    }
}

fn pop<V>(values: &mut Vec<V>) -> Result<V, Stop> {
    values.pop().ok_or(Stop::Malformed)
}

// The two values that were worked out last, in their order.
fn pop_two<V: Drop>(values: &mut Vec<V>) -> Result<(V, V), Stop> {
    let b = pop(values)?;
    let a = pop(values)?;
    Ok((a, b))
}

fn follow<D: Forge>(
    domain: &mut D,
    values: &mut Vec<D::Value>,
    step: Step,
) -> Result<D::Value, Stop> {
    match step {
        Step::Constant(truth) => Ok(domain.constant(truth)),
        Step::Atom { signal, cycle } => Ok(domain.atom(signal, cycle)?),
        Step::Gate { place } => D::forged(place).ok_or(Stop::Malformed),
        Step::Not => {
            let a = pop(values)?;
            Ok(domain.not(a)?)
        }
        Step::And => {
            let (a, b) = pop_two(values)?;
            Ok(domain.and(a, b)?)
        }
        Step::Or => {
            let (a, b) = pop_two(values)?;
            Ok(domain.or(a, b)?)
        }
    }
}

// The value of an expression over a domain.
pub(crate) fn evaluate<D: Forge>(
    heap: Global,
    domain: &mut D,
    steps: &[Step],
) -> Result<D::Value, Stop> {
    let mut values = Vec::new(heap);
    // Each step takes what those before it left, and so no chain of them collects.
    for step in steps {
        let value = follow(domain, &mut values, *step)?;
        values.push(value)?;
    }
    pop(&mut values)
}
