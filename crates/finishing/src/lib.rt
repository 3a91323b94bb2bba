// Every session that is still receiving can be finished. No code runs here: the law is a promise that callers cite.
#![tactic(auto)]

ghost use Rattle.std.specs.Prelude.{◌≡◌, true};
ghost use Rattle.session.specs.declared.records.Settings.{Settings};
ghost use Rattle.finishing.specs.Finishing.{FinishableUnder, GoodSince, UploadsOn, AreRuns, CanRun, OneFragment, OneFragmentApproved};

// Each finishing list ends in a close that is taken and stores the whole bundle; what the reached worlds keep is what
// this asks for; such a list is a run of calls; and one whole fragment and a close, with a yes between where the approver
// is told, are one, which can be run.
pub fn finishing_stands()
    ensures finishable { (sets : Settings) → sets.uploads ≡ true → FinishableUnder sets }
    ensures good { GoodSince }
    ensures uploads { UploadsOn }
    ensures runs { AreRuns }
    ensures unapproved { OneFragment }
    ensures approved { OneFragmentApproved }
    ensures possible { CanRun }
{}
