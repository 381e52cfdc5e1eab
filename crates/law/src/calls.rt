// A call on a book, and what it is answered.
use crate::codes::Code;

// One call. The letter, a byte of text as the format of a call has it, says which; fields that the call does not look at
// may hold anything.
#[derive(Clone, Copy, PartialEq, Eq, Debug)]
pub struct Call<V> {
    pub letter: u8,
    pub site: u32,
    pub slot: u32,
    pub arg: u32,
    pub value: V,
}

// What a call was answered: code, number and value, as the format of an answer has them. The value is the one that an
// accepted read showed, and else the blank.
#[derive(Clone, Copy, PartialEq, Eq, Debug)]
pub struct Answer<V> {
    pub code: Code,
    pub number: u64,
    pub value: V,
}
