// The law over histories: what any list of messages, answers and ticks comes to, by a ledger drawn from the calls alone.
#![tactic(auto)]

ghost use Rattle.history.specs.Law.{Faithful};
ghost use Rattle.history.specs.Samples.{Samples};

// Every run of an intake newly set up is told by the ledger of its calls.
pub fn history_stands()
    ensures law { Faithful }
    ensures samples { Samples }
{}
