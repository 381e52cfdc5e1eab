// What holds of every bank, whatever its replicas are.
ghost use Rattle.banks.specs.Laws.{OthersStay};

// A call on one site leaves the replicas of all others, and the number of sites.
pub fn others_stay()
    ensures { OthersStay }
{}
