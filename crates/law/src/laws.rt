// The theorems of this crate, one for each function: the gate asks for their proofs.
ghost use Rattle.law.specs.Law.{Law, OpeningLaw, StepLaw, RunLaw};
ghost use Rattle.law.specs.Steady.{StaysSteady};
ghost use Rattle.law.specs.Cases.{WorkedCases};
ghost use Rattle.law.specs.Counterexamples.{BrokenRulesBreakTheLaw};

// The law on runs: for every kind, every ledger and list of replicas, every list of opening values and every list of calls.
pub fn law_on_runs<V>()
    ensures { Law V }
{}

// Making a layout, laying in a value and opening lead to a book that the law starts from.
pub fn openings_lead_to_the_law<V>()
    ensures { OpeningLaw V }
{}

// One call keeps the law, from whatever opening and earlier calls its book came.
pub fn every_call_keeps_the_law<V>()
    ensures { StepLaw V }
{}

// A run keeps the law, from whatever opening and earlier calls its book came.
pub fn every_run_keeps_the_law<V>()
    ensures { RunLaw V }
{}

// Between two calls of any run, bases are horizons, and nothing but want of room holds up a delivery.
pub fn books_stay_steady<V>()
    ensures { StaysSteady V }
{}

// The definitions answer short histories as a reader works them out by hand.
pub fn worked_cases()
    ensures { WorkedCases }
{}

// Three histories that books with a broken rule would make: each breaks the law.
pub fn broken_rules_break_the_law()
    ensures { BrokenRulesBreakTheLaw }
{}
