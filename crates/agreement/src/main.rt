#![tactic(auto)]

// Works out Boolean expressions over the rows domain and over the gates domain, one a line of
// standard input, and prints what both make of each.
//
// A line is a title, the first cycle, the rows in hexadecimal, the length of the gate list and the
// steps of the expression, with semicolons between them. A step is 0 or 1 (a constant), sK@C (signal
// K in cycle C), gP (the literal of the gate at place P, issued or not), !, & or |; an operator takes
// the values that were worked out last. The formula is then worked out by a walk through the list of
// gates, with the same rows as its trace. The lines and the answers that they should get are made by
// tools/domain_cases.py.
mod steps;
mod walk;

use anyhow::Context;
use gates::list::Gates;
use std::alloc::Global;
use std::fmt;
use std::io::{BufRead, BufReader};
use steps::{ParseError, Step, Stop, evaluate};
use walk::Recording;

// One case of the input.
#[derive(Drop)]
struct Case {
    recording: Recording,
    length: usize,
    steps: Vec<Step>,
}

// Parsers that allocate are functions: `FromStr` is lent no allocator. `trials` has this one for bytes, and
// two programs share no crate for one chain.
fn parse_rows(heap: Global, text: &str) -> Result<Vec<u64>, ParseError> {
    text.split_whitespace()
        .map(|row| -> Result<u64, ParseError> { Ok(u64::from_str_radix(row, 16)?) })
        .try_collect(heap)
}

fn parse_steps(heap: Global, text: &str) -> Result<Vec<Step>, ParseError> {
    text.split_whitespace()
        .map(|step| step.parse::<Step>())
        .try_collect(heap)
}

// What stands before the next semicolon, and what behind it.
fn split_field(text: &str) -> anyhow::Result<(&str, &str)> {
    text.split_once(';').context("a field is missing")
}

fn parse_case(heap: Global, text: &str) -> anyhow::Result<Case> {
    let (first, text) = split_field(text)?;
    let first = first.trim().parse::<u64>()?;
    let (rows, text) = split_field(text)?;
    let rows = parse_rows(heap, rows)?;
    let (length, steps) = split_field(text)?;
    Ok(Case {
        recording: Recording { first, rows },
        length: length.trim().parse::<usize>()?,
        steps: parse_steps(heap, steps)?,
    })
}

fn over_rows(heap: Global, case: &Case) -> Result<bool, Stop> {
    evaluate(heap, &mut case.recording.domain(), &case.steps)
}

fn over_gates(heap: Global, case: &Case, list: &mut Gates) -> anyhow::Result<Result<bool, Stop>> {
    match evaluate(heap, list, &case.steps) {
        Ok(formula) => {
            let truth = case.recording.formula_truth(heap, list.gates(), formula)?;
            Ok(Ok(truth))
        }
        Err(stop) => Ok(Err(stop)),
    }
}

// A truth, or why there is none.
#[derive(Clone, Copy)]
struct Answer(Result<bool, Stop>);

impl fmt::Display for Answer {
    fn fmt<W: fmt::Write>(&self, f: &mut fmt::Formatter<W>) -> fmt::Result {
        match &self.0 {
            Ok(truth) => write!(f, "{truth}"),
            Err(stop) => write!(f, "{stop}"),
        }
    }
}

// Want of memory is no answer, but an error of the program.
fn told(answer: Result<bool, Stop>) -> anyhow::Result<Answer> {
    match answer {
        Err(stop @ Stop::NoMemory(_)) => Err(stop.into()),
        answer => Ok(Answer(answer)),
    }
}

fn show_case(rt: &HostRuntime, title: &str, case: &Case) -> anyhow::Result<()> {
    let heap = rt.alloc();
    let mut list = Gates::new(heap, case.length)?;
    let rows = told(over_rows(heap, case))?;
    let gates = told(over_gates(heap, case, &mut list)?)?;
    let used = list.gates().len();
    let free = list.free();
    println!(rt; "{title}: rows {rows}, gates {gates}, {used} used, {free} free")?;
    Ok(())
}

fn main(rt: HostRuntime) -> anyhow::Result<()> {
    for line in BufReader::new(rt.alloc(), rt.stdin())?.lines(rt.alloc()) {
        let line = line?;
        let (title, rest) = line.split_once(';').context("a line has no semicolon")?;
        let case = parse_case(rt.alloc(), rest)?;
        show_case(&rt, title, &case)?;
    }
    Ok(())
}
