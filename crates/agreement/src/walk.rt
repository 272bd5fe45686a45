// A list of gates, worked out on recorded rows gate by gate.
use domain::rows::Rows;
use gates::gate::{Gate, Literal, Variable};
use std::alloc::{AllocError, Global};

// Rows from a first cycle on: what `Rows` is lent.
#[derive(Drop)]
pub(crate) struct Recording {
    pub(crate) first: u64,
    pub(crate) rows: Vec<u64>,
}

impl Recording {
    // The rows as a domain.
    pub(crate) fn domain(&self) -> Rows<'_> {
        Rows::new(self.first, &self.rows)
    }

    // Whether a signal is high; where no row is recorded none is.
    fn high(&self, signal: u8, cycle: u64) -> bool {
        cycle
            .checked_sub(self.first)
            .and_then(|place| self.rows.get(place as usize))
            .is_some_and(|row| signal < 64 && (*row >> signal) & 1 == 1)
    }

    // The truth of a literal, where the gates have these truths.
    fn literal_truth(&self, truths: &[bool], literal: Literal) -> bool {
        let truth = match literal.variable {
            Variable::False => false,
            Variable::Atom { signal, cycle } => self.high(signal, cycle),
            Variable::Gate { place } => truths.get(place as usize).copied().unwrap_or(false),
        };
        truth != literal.negated
    }

    // The truth of a literal over the list, on these rows.
    pub(crate) fn formula_truth(
        &self,
        heap: Global,
        gates: &[Gate],
        formula: Literal,
    ) -> Result<bool, AllocError> {
        let mut truths = Vec::new(heap);
        // Each gate reads the truths of those before it, and so no chain of them collects; the gates are lent,
        // so the truths stand in a list of their own.
        for gate in gates {
            let left = self.literal_truth(&truths, gate.left);
            let right = self.literal_truth(&truths, gate.right);
            truths.push(left && right)?;
        }
        Ok(self.literal_truth(&truths, formula))
    }
}
