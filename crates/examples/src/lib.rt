// The worked examples of the documents, each an equation over the definitions that the contracts cite.
#![tactic(auto)]

ghost use Rattle.examples.specs.Examples.{Examples};

// No code runs here: the examples are computed by the check.
pub fn examples_stand()
    ensures { Examples }
{}
