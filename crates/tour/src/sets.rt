// Write sets of counts.
use entries::{Count, Kind, WriteList};

// The word of a count.
pub(crate) fn word(number: i32) -> u64 {
    Count::encode(Count::new(number))
}

// A write set of some counts.
pub(crate) fn set_of(writes: &[(u8, i32)]) -> WriteList {
    let mut set = WriteList::empty();
    for (item, number) in writes {
        let _ = set.put(*item, word(*number));
    }
    set
}
