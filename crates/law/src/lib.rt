// The whole law over histories: what every run of an intake comes to, that each receiving session can be finished,
// and that each range acknowledged is the count after its call.
#![tactic(auto)]

ghost use Rattle.law.specs.Whole.{Promised, PromisedHeard};

// It stands over the definitions of what a call does; no code runs here.
pub fn law_stands()
    ensures whole { Promised }
    ensures heard { PromisedHeard }
{}
