// What the definitions of a replica's calls come to, told of every replica.
ghost use Rattle.replicas.specs.Laws.{OldestReplacedWord, TakeKeepsHistory, ForgetKeepsHistory, NewestWriteCounts};

// Of the words that writes replaced in an item, the oldest is the one from before all of them.
pub fn oldest_replaced_word()
    ensures { OldestReplacedWord }
{}

// A set that is taken leaves every earlier version as it was, and the new version is the set over the one before.
pub fn take_keeps_history()
    ensures { TakeKeepsHistory }
{}

// Forgetting leaves the contents of every version from the new base on as they were.
pub fn forget_keeps_history()
    ensures { ForgetKeepsHistory }
{}

// A read shows the word of the newest write of the item up to the version, or else the word at the base.
pub fn newest_write_counts()
    ensures { NewestWriteCounts }
{}
