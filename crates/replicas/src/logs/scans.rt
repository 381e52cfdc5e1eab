// Passes over the records of a ring and the writes of a set.
ghost use Rattle.std.specs.Prelude.{◌≡◌, ◌+◌, ◌≤◌, false, ◌==◌, ◌++◌, map, length, take, drop, reverse, nat_lt};
ghost use Rattle.std.specs.List.{find};
ghost use Rattle.std.specs.Option.{option_map};
ghost use Rattle.std.specs.List.Sorted.{IsNonDecreasingBy};
ghost use Rattle.rings.specs.Held.{held, size};
ghost use Rattle.replicas.specs.Overlay.{names_beyond, newest_word_of, oldest_word_of, laid, replaced};
ghost use Rattle.replicas.specs.Records.{plain, marked, upto};

use crate::records::Record;
use entries::Write;
use rings::ring::Ring;

// How many of these records are of versions up to `to`, by halving: they come before all others.
fn end_in(records: &[Record], to: u32) -> usize
    requires { IsNonDecreasingBy (λ r. r.version) records.now }
    ensures { result ≡ upto to records.now }
{
    records.partition_point(|r| r.version <= to)
}

// The newest of these records that writes the item.
fn last_of(records: &[Record], item: usize) -> Option<&Record>
    ensures { option_map (λ r. r.now) result ≡ find (λ r. r.item == item) (reverse records.now) }
{
    records.iter().rev().find(|r| usize::from(r.item) == item)
}

// The oldest of these records that writes the item. The two directions have a search each: one function over any iterator
// would have to speak of the runs of an iterator, and not of a list.
fn first_of(records: &[Record], item: usize) -> Option<&Record>
    ensures { option_map (λ r. r.now) result ≡ find (λ r. r.item == item) records.now }
{
    records.iter().find(|r| usize::from(r.item) == item)
}

// The newest of the records in two parts that writes the item: the newer part is asked first.
fn newest_of<'r>(older: &'r [Record], newer: &'r [Record], item: usize) -> Option<&'r Record>
    ensures { option_map (λ r. r.now) result ≡ find (λ r. r.item == item) (reverse newer.now ++ reverse older.now) }
{
    match last_of(newer, item) {
        Some(r) => Some(r),
        None => last_of(older, item),
    }
}

// The oldest of them: the older part is asked first.
fn oldest_of<'r>(older: &'r [Record], newer: &'r [Record], item: usize) -> Option<&'r Record>
    ensures { option_map (λ r. r.now) result ≡ find (λ r. r.item == item) (older.now ++ newer.now) }
{
    match first_of(older, item) {
        Some(r) => Some(r),
        None => first_of(newer, item),
    }
}

// Lays the words of these records over the page, oldest first.
fn lay(page: &mut [u64], records: &[Record])
    ensures { page.new ≡ laid page.old (map plain records.now) }
{
    for record in records {
        let item = usize::from(record.item);
        if item < page.len() {
            page[item] = record.word;
        }
    }
}

// Whether the first of these records is of a version up to `to`.
fn begins_upto(records: &[Record], to: u32) -> bool
    ensures { result ≡ nat_lt 0 (upto to records.now) }
{
    records.first().is_some_and(|r| r.version <= to)
}

// How many records are of versions up to `to`: they come before all others.
pub(crate) fn end_of(ring: &Ring<Record>, to: u32) -> usize
    requires { IsNonDecreasingBy (λ r. r.version) (held ring.now) }
    ensures { result ≡ upto to (held ring.now) }
{
    let (older, newer) = ring.range(0, ring.len());
    // the first of the newer part tells in which part the end lies
    if begins_upto(newer, to) {
        older.len() + end_in(newer, to)
    } else {
        end_in(older, to)
    }
}

// The word of the newest of the first `end` records that writes the item, or `word`.
pub(crate) fn newest_word(ring: &Ring<Record>, end: usize, item: usize, word: u64) -> u64
    ensures { result ≡ newest_word_of (map plain (take end (held ring.now))) item word }
{
    let (older, newer) = ring.range(0, end);
    newest_of(older, newer, item).map_or(word, |r| r.word)
}

// The word of the oldest of the records from `start` on that writes the item, or `word`.
pub(crate) fn oldest_word(ring: &Ring<Record>, start: usize, item: usize, word: u64) -> u64
    ensures { result ≡ oldest_word_of (map plain (drop start (held ring.now))) item word }
{
    let (older, newer) = ring.range(start, ring.len());
    oldest_of(older, newer, item).map_or(word, |r| r.word)
}

// Lays the words of the first `end` records over the page, oldest first.
pub(crate) fn lay_over(page: &mut [u64], ring: &Ring<Record>, end: usize)
    ensures { page.new ≡ laid page.old (map plain (take end (held ring.now))) }
{
    let (older, newer) = ring.range(0, end);
    lay(page, older);
    lay(page, newer);
}

// Puts the records of a version's set after the others.
pub(crate) fn append(ring: &mut Ring<Record>, version: u32, set: &[Write])
    requires { length (held ring.old) + length set.now ≤ size ring.old }
    ensures after { held ring.new ≡ held ring.old ++ marked version set.now }
    ensures room { size ring.new ≡ size ring.old }
{
    for w in set {
        let _ = ring.push(Record {
            item: w.item,
            version,
            word: w.word,
        });
    }
}

// Lays the set over the page, and puts records of the words that it replaced after the others.
pub(crate) fn exchange(page: &mut [u64], ring: &mut Ring<Record>, version: u32, set: &[Write])
    requires room { length (held ring.old) + length set.now ≤ size ring.old }
    requires below { names_beyond (length page.old) set.now ≡ false }
    ensures page { page.new ≡ laid page.old set.now }
    ensures after { held ring.new ≡ held ring.old ++ marked version (replaced page.old set.now) }
    ensures room { size ring.new ≡ size ring.old }
{
    for w in set {
        let item = usize::from(w.item);
        let _ = ring.push(Record {
            item: w.item,
            version,
            word: page[item],
        });
        page[item] = w.word;
    }
}

// Whether some write is of an item that is not below the limit.
pub(crate) fn names_past(set: &[Write], limit: usize) -> bool
    ensures { result ≡ names_beyond limit set.now }
{
    set.iter().any(|w| usize::from(w.item) >= limit)
}
