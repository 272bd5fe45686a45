#![tactic(auto)]

// Checks tables, one a line of standard input, and prints what became of each.
//
// A line is a title, a semicolon and the table's bytes in hexadecimal; behind a further semicolon
// there may be a start, whose span is then asked for. The lines and the answers that they should get
// are made by tools/table_cases.py.
use anyhow::Context;
use fault::Fault;
use std::alloc::{AllocError, Global};
use std::fmt;
use std::io::{BufRead, BufReader};
use std::num::ParseIntError;
use table::span::Span;
use table::table::Table;
use thiserror::Error;

// Why a text spells no bytes. An enum, and not an `anyhow::Error`, which is large: a result of that size would
// be passed on for each byte.
#[derive(Debug, Drop, Error)]
enum ParseError {
    #[error(transparent)]
    Number(#[from] ParseIntError),
    #[error(transparent)]
    Memory(#[from(alloc)] AllocError),
}

// The bytes that a text of hexadecimal pairs spells; a function, since `FromStr` is lent no allocator.
fn parse(heap: Global, text: &str) -> Result<Vec<u8>, ParseError> {
    text.split_whitespace()
        .map(|pair| -> Result<u8, ParseError> { Ok(u8::from_str_radix(pair, 16)?) })
        .try_collect(heap)
}

// What is told of a table that is accepted.
#[derive(Clone, Copy)]
enum Accepted {
    Table {
        horizon: u16,
        lookback: u16,
        scratch: usize,
    },
    Start(Span),
}

impl fmt::Display for Accepted {
    fn fmt<W: fmt::Write>(&self, f: &mut fmt::Formatter<W>) -> fmt::Result {
        match *self {
            Accepted::Table {
                horizon,
                lookback,
                scratch,
            } => write!(
                f,
                "accepted, horizon {horizon}, lookback {lookback}, scratch {scratch}"
            ),
            Accepted::Start(Span { first, last }) => write!(f, "span {first} to {last}"),
        }
    }
}

fn check(bytes: &[u8], start: Option<u64>) -> Result<Accepted, Fault> {
    let mut table = Table::new();
    table.check(bytes)?;
    match start {
        None => Ok(Accepted::Table {
            horizon: table.horizon(),
            lookback: table.lookback(),
            scratch: table.scratch_length(),
        }),
        Some(start) => Ok(Accepted::Start(table.span(start)?)),
    }
}

fn try_table(rt: &HostRuntime, title: &str, text: &str, start: Option<u64>) -> anyhow::Result<()> {
    match check(&parse(rt.alloc(), text)?, start) {
        Ok(accepted) => println!(rt; "{title}: {accepted}")?,
        Err(fault) => println!(rt; "{title}: {}", fault.refusal())?,
    }
    Ok(())
}

fn try_line(rt: &HostRuntime, line: &str) -> anyhow::Result<()> {
    let (title, rest) = line.split_once(';').context("a line has no semicolon")?;
    match rest.split_once(';') {
        Some((text, start)) => try_table(rt, title, text, Some(start.trim().parse::<u64>()?)),
        None => try_table(rt, title, rest, None),
    }
}

fn main(rt: HostRuntime) -> anyhow::Result<()> {
    for line in BufReader::new(rt.alloc(), rt.stdin())?.lines(rt.alloc()) {
        let line = line?;
        try_line(&rt, line.as_str())?;
    }
    Ok(())
}
