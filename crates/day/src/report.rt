// How the day tells what it does.
use entries::{Card, Count};
use law::{Answer, Code};
use std::io;

// A value that a read shows, told as a reader of the day wants it; `Display` is left to the text of a value, which is another.
pub(crate) trait Shown: Copy {
    // Says what the value is.
    fn tell(self, rt: &HostRuntime) -> io::Result<()>;
}

impl Shown for Count {
    fn tell(self, rt: &HostRuntime) -> io::Result<()> {
        let count = self.number;
        println!(rt; "    it shows {count}")
    }
}

impl Shown for Card {
    fn tell(self, rt: &HostRuntime) -> io::Result<()> {
        let stage = u64::from(self.stage);
        let bench = self.bench;
        let minutes = self.minutes;
        println!(rt; "    it shows stage {stage}, bench {bench}, {minutes} minutes")
    }
}

// Says what comes next.
pub(crate) fn heading(rt: &HostRuntime, text: &str) -> io::Result<()> {
    println!(rt; "{text}")
}

// Says what a call was answered.
pub(crate) fn say<V: Copy>(rt: &HostRuntime, what: &str, answer: Answer<V>) -> io::Result<()> {
    let number = answer.number;
    match answer.code {
        Code::Accepted => println!(rt; "  {what}: accepted, number {number}"),
        code => {
            let code = code.number();
            println!(rt; "  {what}: refused with code {code}, number {number}")
        }
    }
}

// Says what a read was answered.
pub(crate) fn show<V: Shown>(rt: &HostRuntime, what: &str, answer: Answer<V>) -> io::Result<()> {
    say(rt, what, answer)?;
    answer.value.tell(rt)
}
