// Prints the sheet of the books `office.bok` and `tablet.bok` in the current folder.
#![tactic(auto)]

use page::page;
use std::io::{ErrorKind, Write};
use std::{fs, io};

// A book's bytes; a missing file is an empty book.
fn read_book(rt: &HostRuntime, name: &str) -> io::Result<Vec<u8>> {
    match fs::read(rt, name) {
        Ok(bytes) => Ok(bytes),
        Err(e) => {
            if e.kind() == ErrorKind::NotFound {
                Ok(Vec::new(rt.alloc()))
            } else {
                Err(e)
            }
        }
    }
}

fn run(rt: &HostRuntime) -> anyhow::Result<()> {
    let office = read_book(rt, "office.bok")?;
    let tablet = read_book(rt, "tablet.bok")?;
    let text = page(rt.alloc(), office.as_slice(), tablet.as_slice())?;
    rt.stdout().write_all(text.as_slice())?;
    Ok(())
}

fn main(rt: HostRuntime) -> anyhow::Result<()> {
    run(&rt)
}
