// What is shown of the definitions themselves. The function has nothing to do.
ghost use Rattle.domain.specs.Examples.{Examples};

// What the contract of an operation allows, and what it excludes: answers with a wrong truth, places
// not counted, values lost, refusals without their reason or out of their order.
pub fn contract_examples()
    ensures { Examples }
{}
