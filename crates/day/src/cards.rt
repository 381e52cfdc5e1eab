// A short list of calls on a book of job cards.
use crate::frame::Plan;
use crate::report::{heading, say, show};
use banks::Bank;
use book::{Book, Layout};
use entries::{Card, Stage};
use law::{Answer, Call, Code};
use ledgers::Ledger;
use std::io;

// A lamp on bench 2, with some minutes of work in it.
fn lamp(stage: Stage, minutes: u16) -> Card {
    Card::new(stage, 2, 5, minutes)
}

// What the list was answered.
fn tell(rt: &HostRuntime, answers: &[Answer<Card>; 7]) -> io::Result<()> {
    say(rt, "shop 2 begins", answers[0])?;
    show(rt, "shop 2 reads the lamp", answers[1])?;
    say(rt, "shop 2 writes that it is ready", answers[2])?;
    say(rt, "shop 2 files", answers[3])?;
    say(rt, "delivery to shop 1", answers[4])?;
    say(rt, "shop 1 begins", answers[5])?;
    show(rt, "shop 1 reads the lamp", answers[6])
}

// A day with a book of cards.
pub(crate) struct Cards;

impl Plan for Cards {
    type Entry = Card;

    fn lay_in<L: Ledger, B: Bank>(
        rt: &HostRuntime,
        layout: &mut Layout<Card, L, B>,
    ) -> io::Result<()> {
        heading(
            rt,
            "The parts are laid out anew, as a book of job cards with an index ledger",
        )?;
        say(
            rt,
            "a lamp on the bench as item 0",
            layout.lay(0, lamp(Stage::OnBench, 30)),
        )
    }

    fn make_use<L: Ledger, B: Bank>(
        rt: &HostRuntime,
        book: &mut Book<Card, L, B>,
    ) -> io::Result<()> {
        let ready = lamp(Stage::Ready, 45);
        let call = |letter, site| Call {
            letter,
            site,
            slot: 0,
            arg: 0,
            value: ready,
        };
        let calls = [
            call(b'B', 2),
            call(b'R', 2),
            call(b'W', 2),
            call(b'F', 2),
            call(b'D', 1),
            call(b'B', 1),
            call(b'R', 1),
        ];
        let mut answers = [Answer {
            code: Code::Accepted,
            number: 0,
            value: ready,
        }; 7];
        say(rt, "a run of seven calls", book.run(&calls, &mut answers))?;
        tell(rt, &answers)
    }
}
