// Kinds of entry: a type of value, its blank, and its coding into words.
ghost use Rattle.std.specs.Prelude.{◌≡◌};
ghost use Rattle.entries.specs.Codings.{Coding, Faithful, BlankElsewhere};
ghost use Rattle.entries.specs.Counts.{count_coding};
ghost use Rattle.entries.specs.Cards.{card_coding};
ghost use Rattle.entries.specs.CountsLemmas as Counts;
ghost use Rattle.entries.specs.CardsLemmas as Cards;

use crate::values::{Card, Count, Stage};

pub trait Kind {
    type Value: Copy;

    // The value that an item has where nothing else was given.
    const BLANK: Self::Value;

    // the blank, the word of each value, and the value of each word
    ghost coding: { Coding Self.Value };

    // `BLANK`, with a contract that says which value it is.
    fn empty() -> Self::Value
        ensures { result ≡ coding.blank };

    fn encode(value: Self::Value) -> u64
        ensures { result ≡ coding.word value };

    fn decode(word: u64) -> Self::Value
        ensures { result ≡ coding.value word };

    // decoding the word of a value gives the value
    ghost faithful: { Faithful coding };

    // a word that codes no value decodes to the blank
    ghost elsewhere: { BlankElsewhere coding };
}

// Counts: the word of a number is the number modulo 4294967296.
impl Kind for Count {
    type Value = Count;

    const BLANK: Count = Count { number: 0 };

    ghost coding = { count_coding };

    ghost faithful = { Counts.faithful };

    ghost elsewhere = { Counts.elsewhere };

    fn empty() -> Count {
        Self::BLANK
    }

    fn encode(value: Count) -> u64 {
        u64::from(value.number.cast_unsigned())
    }

    fn decode(word: u64) -> Count {
        match u32::try_from(word) {
            Ok(bits) => Count {
                number: bits.cast_signed(),
            },
            Err(_) => Self::BLANK,
        }
    }
}

// Words from here on code no card.
const CARD_WORDS: u64 = 281474976710656;

// What the bench is multiplied by in a card's word.
const BENCH_UNIT: u64 = 256;

// What the part is multiplied by.
const PART_UNIT: u64 = 65536;

// What the minutes are multiplied by.
const MINUTES_UNIT: u64 = 4294967296;

// How many values a byte has: the stage and the bench take one each.
const BYTE: u64 = 256;

// How many values two bytes have: the part and the minutes take two each.
const TWO_BYTES: u64 = 65536;

// Cards: stage, bench, part and minutes lie side by side in the word, from its low end on.
impl Kind for Card {
    type Value = Card;

    const BLANK: Card = Card {
        stage: Stage::Received,
        bench: 0,
        part: 0,
        minutes: 0,
    };

    ghost coding = { card_coding };

    ghost faithful = { Cards.faithful };

    ghost elsewhere = { Cards.elsewhere };

    fn empty() -> Card {
        Self::BLANK
    }

    fn encode(value: Card) -> u64 {
        u64::from(value.stage)
            + BENCH_UNIT * u64::from(value.bench)
            + PART_UNIT * u64::from(value.part)
            + MINUTES_UNIT * u64::from(value.minutes)
    }

    fn decode(word: u64) -> Card {
        if word >= CARD_WORDS {
            return Self::BLANK;
        }
        let Ok(stage) = Stage::try_from(word % BYTE) else {
            return Self::BLANK;
        };
        // casts: each remainder fits, and the word's layout is plain in them
        Card {
            stage,
            bench: (word / BENCH_UNIT % BYTE) as u8,
            part: (word / PART_UNIT % TWO_BYTES) as u16,
            minutes: (word / MINUTES_UNIT % TWO_BYTES) as u16,
        }
    }
}
