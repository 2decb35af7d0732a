// Lists the books `office.bok` and `tablet.bok` of the current folder, or of each folder that is named.
#![tactic(auto)]

use std::io::ErrorKind;
use std::{env, fs, io};
use transcript::listing;

// A book's bytes; a missing file is an empty book.
fn read_book(rt: &HostRuntime, folder: &str, name: &str) -> io::Result<Vec<u8>> {
    let heap = rt.alloc();
    let path = format!(in heap; "{folder}/{name}")?;
    match fs::read(rt, path.as_str()) {
        Ok(bytes) => Ok(bytes),
        Err(e) => {
            if e.kind() == ErrorKind::NotFound {
                Ok(Vec::new(heap))
            } else {
                Err(e)
            }
        }
    }
}

fn print_folder(rt: &HostRuntime, folder: &str) -> anyhow::Result<()> {
    let office = read_book(rt, folder, "office.bok")?;
    let tablet = read_book(rt, folder, "tablet.bok")?;
    let text = listing(rt.alloc(), office.as_slice(), tablet.as_slice())?;
    rt.print(text)?;
    Ok(())
}

fn run(rt: &HostRuntime) -> anyhow::Result<()> {
    let mut named = false;
    for folder in env::args(rt)?.skip(1) {
        named = true;
        print_folder(rt, folder.as_str())?;
    }
    if !named {
        print_folder(rt, ".")?;
    }
    Ok(())
}

fn main(rt: HostRuntime) -> anyhow::Result<()> {
    run(&rt)
}
