// A day with a book of counts: item 0 is lamps, item 1 is chairs.
use crate::frame::Plan;
use crate::report::{heading, say, show};
use banks::Bank;
use book::{Book, Layout};
use entries::Count;
use ledgers::Ledger;
use std::io;

// Shop 0 sells a lamp.
fn first_sale<L: Ledger, B: Bank>(
    rt: &HostRuntime,
    book: &mut Book<Count, L, B>,
) -> io::Result<()> {
    heading(
        rt,
        "In the morning the line is down, and shop 0 sells a lamp",
    )?;
    say(rt, "shop 0 begins", book.begin(0, 0))?;
    show(rt, "shop 0 reads the lamps", book.read(0, 0, 0))?;
    say(
        rt,
        "shop 0 writes 11 lamps",
        book.write(0, 0, 0, Count::new(11)),
    )?;
    say(rt, "shop 0 files", book.file(0, 0))?;
    say(rt, "shop 0 closes before the delivery", book.close(0, 0))
}

// Shop 1 has not heard of it and sells two.
fn second_sale<L: Ledger, B: Bank>(
    rt: &HostRuntime,
    book: &mut Book<Count, L, B>,
) -> io::Result<()> {
    heading(
        rt,
        "Shop 1 has not heard of it, and sells two lamps; shop 2 takes up the chairs",
    )?;
    say(rt, "shop 1 begins", book.begin(1, 0))?;
    show(rt, "shop 1 reads the lamps", book.read(1, 0, 0))?;
    say(
        rt,
        "shop 1 writes 10 lamps",
        book.write(1, 0, 0, Count::new(10)),
    )?;
    say(
        rt,
        "shop 1 files, in conflict with version 1",
        book.file(1, 0),
    )?;
    say(rt, "shop 2 begins", book.begin(2, 0))?;
    say(
        rt,
        "shop 2 writes 6 chairs",
        book.write(2, 0, 1, Count::new(6)),
    )
}

// The line is up: shops 0 and 1 are brought up to date, and the second sale is done over.
fn noon<L: Ledger, B: Bank>(rt: &HostRuntime, book: &mut Book<Count, L, B>) -> io::Result<()> {
    heading(
        rt,
        "At noon the line is up, and shop 1 sells its two lamps anew",
    )?;
    say(rt, "delivery to shop 0", book.deliver(0))?;
    say(rt, "shop 0 closes after the delivery", book.close(0, 0))?;
    say(rt, "delivery to shop 1", book.deliver(1))?;
    say(rt, "shop 1 begins", book.begin(1, 0))?;
    show(rt, "shop 1 reads the lamps", book.read(1, 0, 0))?;
    say(
        rt,
        "shop 1 writes 9 lamps",
        book.write(1, 0, 0, Count::new(9)),
    )?;
    say(rt, "shop 1 files", book.file(1, 0))
}

// A look-up at an old snapshot goes on while versions arrive.
fn look_back<L: Ledger, B: Bank>(rt: &HostRuntime, book: &mut Book<Count, L, B>) -> io::Result<()> {
    heading(
        rt,
        "A clerk of shop 1 looks at the book while a delivery comes in",
    )?;
    say(rt, "the clerk begins in slot 1", book.begin(1, 1))?;
    say(rt, "delivery to shop 1", book.deliver(1))?;
    show(
        rt,
        "the clerk reads the lamps as they were",
        book.read(1, 1, 0),
    )?;
    say(rt, "shop 1 closes its sale", book.close(1, 0))?;
    say(rt, "shop 1 begins again", book.begin(1, 0))?;
    show(rt, "shop 1 reads the lamps as they are", book.read(1, 0, 0))?;
    say(rt, "shop 1 drops that", book.discard(1, 0))
}

// A trim has to wait until every shop has come along.
fn evening<L: Ledger, B: Bank>(rt: &HostRuntime, book: &mut Book<Count, L, B>) -> io::Result<()> {
    heading(rt, "In the evening the ledger is to be trimmed")?;
    say(rt, "delivery to shop 0", book.deliver(0))?;
    say(rt, "trim to version 2 while shop 2 lags", book.trim(2))?;
    say(rt, "delivery to shop 2", book.deliver(2))?;
    say(rt, "delivery to shop 2", book.deliver(2))?;
    say(rt, "delivery to shop 2, which has all", book.deliver(2))
}

// What the trim leaves to be filed.
fn night<L: Ledger, B: Bank>(rt: &HostRuntime, book: &mut Book<Count, L, B>) -> io::Result<()> {
    heading(
        rt,
        "At night every shop has all, and what was left open is filed",
    )?;
    say(rt, "trim to version 2", book.trim(2))?;
    say(
        rt,
        "shop 2 files its chairs, begun below the floor",
        book.file(2, 0),
    )?;
    say(
        rt,
        "the clerk files a transaction without writes",
        book.file(1, 1),
    )?;
    say(rt, "filings turned away", book.count())
}

// A day with a book of counts.
pub(crate) struct Counts;

impl Plan for Counts {
    type Entry = Count;

    fn lay_in<L: Ledger, B: Bank>(
        rt: &HostRuntime,
        layout: &mut Layout<Count, L, B>,
    ) -> io::Result<()> {
        heading(rt, "Three shops lay in their opening stock")?;
        say(rt, "12 lamps as item 0", layout.lay(0, Count::new(12)))?;
        say(rt, "7 chairs as item 1", layout.lay(1, Count::new(7)))?;
        say(rt, "3 tables as item 9", layout.lay(9, Count::new(3)))
    }

    fn make_use<L: Ledger, B: Bank>(
        rt: &HostRuntime,
        book: &mut Book<Count, L, B>,
    ) -> io::Result<()> {
        first_sale(rt, book)?;
        second_sale(rt, book)?;
        noon(rt, book)?;
        look_back(rt, book)?;
        evening(rt, book)?;
        night(rt, book)
    }
}
