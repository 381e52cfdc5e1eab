// Two sites side by side, through three write sets.
use crate::sets::{set_of, word};
use banks::Bank;
use entries::{Count, Kind, WriteList};
use std::io;

// Gives an item its opening count at both sites.
fn open<B: Bank>(rt: &HostRuntime, bank: &mut B, item: usize, number: i32) -> io::Result<()> {
    match bank.open_word(item, word(number)) {
        Ok(()) => println!(rt; "opening count of item {item}: {number}"),
        Err(refusal) => println!(rt; "opening count of item {item}: refused, {refusal}"),
    }
}

// Hands a write set to each site. Here and below a site is its number, and a bank has no list of them to go through.
fn deliver<B: Bank>(rt: &HostRuntime, bank: &mut B, set: &WriteList) -> io::Result<()> {
    let size = set.len();
    for site in 0..bank.sites() {
        match bank.take(site, set) {
            Ok(version) => println!(rt;
                "  site {site} takes a set of {size} as version {version}"
            )?,
            Err(refusal) => println!(rt; "  site {site} refuses a set of {size}: {refusal}")?,
        }
    }
    Ok(())
}

// Shows an item at a version and a site.
fn show<B: Bank>(
    rt: &HostRuntime,
    bank: &B,
    site: usize,
    version: u32,
    item: usize,
) -> io::Result<()> {
    match bank.read(site, version, item) {
        Ok(word) => {
            let number = Count::decode(word).number;
            println!(rt; "  site {site} shows {number}")
        }
        Err(refusal) => println!(rt; "  site {site} refuses: {refusal}"),
    }
}

// Shows an item at a version, at each site.
fn look_up<B: Bank>(rt: &HostRuntime, bank: &B, item: usize, version: u32) -> io::Result<()> {
    println!(rt; "look up item {item} at version {version}")?;
    for site in 0..bank.sites() {
        show(rt, bank, site, version, item)?;
    }
    Ok(())
}

// Makes a version the oldest that a site keeps.
fn forget<B: Bank>(rt: &HostRuntime, bank: &mut B, site: usize, to: u32) -> io::Result<()> {
    match bank.forget(site, to) {
        Ok(()) => println!(rt; "site {site} forgets what lies below version {to}"),
        Err(refusal) => println!(rt; "site {site} does not forget to version {to}: {refusal}"),
    }
}

// How far each site has come.
fn state<B: Bank>(rt: &HostRuntime, bank: &B) -> io::Result<()> {
    for site in 0..bank.sites() {
        if let (Some(base), Some(version), Some(used)) = (
            bank.base(site),
            bank.version(site),
            bank.used(site),
        ) {
            println!(rt; "  site {site} keeps versions {base} to {version}, records used: {used}")?;
        }
    }
    Ok(())
}

// Opening counts, and three write sets at both sites.
fn fill<B: Bank>(rt: &HostRuntime, bank: &mut B) -> io::Result<()> {
    let items = bank.items();
    println!(rt;
        "a page replica at site 0, an undo replica at site 1, {items} items, 5 records each"
    )?;
    open(rt, bank, 0, 12)?;
    open(rt, bank, 1, 7)?;
    open(rt, bank, 4, 1)?;
    println!(rt; "one piece of item 0 is sold")?;
    deliver(rt, bank, &set_of(&[(0, 11)]))?;
    println!(rt; "five pieces of item 1 come in, and item 2 is owed one")?;
    deliver(rt, bank, &set_of(&[(2, -1), (1, 12)]))?;
    println!(rt; "two more of item 0 are sold")?;
    deliver(rt, bank, &set_of(&[(0, 9)]))?;
    open(rt, bank, 3, 5)?;
    state(rt, bank)
}

// Old and new versions, full buffers and forgotten versions.
fn use_up<B: Bank>(rt: &HostRuntime, bank: &mut B) -> io::Result<()> {
    look_up(rt, bank, 0, 0)?;
    look_up(rt, bank, 0, 2)?;
    look_up(rt, bank, 2, 3)?;
    println!(rt; "a stocktake of three items comes in")?;
    deliver(rt, bank, &set_of(&[(0, 8), (1, 12), (2, 0)]))?;
    forget(rt, bank, 0, 2)?;
    forget(rt, bank, 1, 3)?;
    forget(rt, bank, 1, 1)?;
    state(rt, bank)?;
    look_up(rt, bank, 0, 2)?;
    println!(rt; "the stocktake comes again")?;
    deliver(rt, bank, &set_of(&[(0, 8), (1, 12), (2, 0)]))?;
    look_up(rt, bank, 0, 4)?;
    println!(rt; "look up at a third site")?;
    show(rt, bank, 2, 4, 0)?;
    state(rt, bank)
}

// The whole way, from cleared replicas on.
pub(crate) fn tour<B: Bank>(rt: &HostRuntime, bank: &mut B) -> io::Result<()> {
    bank.clear(word(0));
    fill(rt, bank)?;
    use_up(rt, bank)
}
