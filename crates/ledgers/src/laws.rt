// What the definitions of a ledger's calls come to, told of every ledger.
ghost use Rattle.ledgers.specs.Laws.{NewestIsNewest, AddKeepsSets, TrimKeepsSets};

// The version that newest answers wrote one of the items and none after it did; where it answers none, none did.
pub fn newest_is_newest()
    ensures { NewestIsNewest }
{}

// An added list is the set of the next version, and every earlier version has the set that it had.
pub fn add_keeps_sets()
    ensures { AddKeepsSets }
{}

// Trimming raises the floor, to the head at most, and every version above it has the set that it had.
pub fn trim_keeps_sets()
    ensures { TrimKeepsSets }
{}
