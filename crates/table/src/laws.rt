// What is shown of the definitions themselves. The function has nothing to do.
ghost use Rattle.table.specs.Worked.{Worked};

// The worked examples: what properties give on rows, and a table that is refused.
#[tactic(auto, unfolding(nodes::specs::Trees::trees_from, crate::specs::Contents::nodes_upto))]
pub fn worked_examples()
    ensures { Worked }
{}
