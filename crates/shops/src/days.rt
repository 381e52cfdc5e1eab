// A day on a book of shelf counts, over any ledger and bank.
use banks::Bank;
use book::{Book, Layout, Parts};
use entries::Count;
use law::{Answer, Call, Code};
use ledgers::Ledger;

// What a day showed, codes by their numbers.
#[derive(Clone, Copy, PartialEq, Eq, Debug)]
pub struct Day {
    pub opened_with: i32,
    pub filed_as: u64,
    pub turned_away: u8,
    pub delivered: u64,
    pub calls_run: u64,
    pub sold_down_to: i32,
}

// Two sites sell from one shelf: the first sale is filed, the second is turned away, and the second site then sees the first.
pub fn one_day<L: Ledger, B: Bank>(parts: Parts<L, B>) -> (Parts<L, B>, Day) {
    let mut layout: Layout<Count, L, B> = Layout::new(parts);
    layout.lay(2, Count::new(12));
    let mut book: Book<Count, L, B> = layout.open();
    book.begin(0, 0);
    book.begin(1, 0);
    let opened = book.read(0, 0, 2);
    book.write(0, 0, 2, Count::new(9));
    book.write(1, 0, 2, Count::new(7));
    let filed = book.file(0, 0);
    let second = book.file(1, 0);
    let delivered = book.deliver(1);
    let call = |letter, arg| Call {
        letter,
        site: 1,
        slot: 3,
        arg,
        value: Count::new(0),
    };
    let calls = [call(b'B', 0), call(b'R', 2), call(b'F', 0)];
    let mut answers = [Answer {
        code: Code::NoSuchLetter,
        number: 0,
        value: Count::new(0),
    }; 3];
    let run = book.run(&calls, &mut answers);
    let day = Day {
        opened_with: opened.value.number,
        filed_as: filed.number,
        turned_away: second.code.number(),
        delivered: delivered.number,
        calls_run: run.number,
        sold_down_to: answers[1].value.number,
    };
    (book.wind_up(), day)
}
