// The laws about the meaning, and its worked examples. Each is what a function promises, so that
// the crate is proved only with it. None of them has anything to do.
ghost use Rattle.sva.specs.Examples.{Examples};
ghost use Rattle.sva.specs.Laws.{MatchLengths, MatchReads, SpansSuffice, TestsDecide};

// The worked examples have the verdicts, lengths, horizons, lookbacks and spans that they should.
pub fn meaning_examples()
    ensures { Examples }
{}

// The tests find exactly what the relation without bounds says.
pub fn tests_decide()
    ensures { TestsDecide }
{}

// Every match is as long as the lengths of its sequence say.
pub fn match_lengths()
    ensures { MatchLengths }
{}

// Whether a stretch is matched depends on its own cycles and those looked back to alone.
pub fn match_reads()
    ensures { MatchReads }
{}

// Two traces that are alike in each cycle of a start's span give it the same verdict.
pub fn span_suffices()
    ensures { SpansSuffice }
{}
