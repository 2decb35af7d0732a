// Books beside the text that is printed of them, worked out by hand from the rules.
#![tactic(auto)]

#[cfg(test)]
mod tests {
    use page::page;
    use std::process::Abort;
    use std::test::Fail;

    fn prints(
        rt: &(impl Abort + AllocGlobal),
        office: &[u8],
        tablet: &[u8],
        text: &[u8],
    ) -> Result<(), Fail> {
        let printed = page(rt.alloc(), office, tablet)?;
        assert!(rt; printed.as_slice() == text);
        Ok(())
    }

    #[test]
    fn short_books(rt: HostRuntime) -> Result<(), Fail> {
        let rt = &rt;
        prints(rt, b"", b"", b"period 24 bound 1\n")?;
        // A command cut off drops the rest of its book, and the other book is still read.
        prints(
            rt,
            b"\x08",
            b"\x09\x00\x3C\x08\x03\xE8",
            b"office 0 21\ntablet 3 12\nperiod 24 bound 1\n",
        )?;
        // Bytes drawn at random: an unknown byte, and a count for a kind that there is not.
        prints(
            rt,
            b"\x9F\x3A\x00\x51\xC2\x08\x00\x02",
            b"\x0A\x03\x05\x0A\xC4\x11\x77\x08\x00\x02",
            b"office 0 20\ntablet 3 5\ntablet 6 20\nperiod 24 bound 1\n",
        )
    }

    #[test]
    fn long_books(rt: HostRuntime) -> Result<(), Fail> {
        let rt = &rt;
        let zeros = [0; 4097];
        prints(rt, &zeros, b"", b"refused 24\n")?;
        prints(rt, b"\x08", &zeros, b"refused 24\n")?;
        prints(
            rt,
            &zeros[0..4096],
            b"",
            b"office 0 20\nperiod 24 bound 1\n",
        )
    }

    // A full book of commands that are all refused: rule 0 is removed 2,048 times.
    fn removals() -> [u8; 4096] {
        let mut book = [0; 4096];
        for command in book.chunks_exact_mut(2) {
            command[0] = 0x07;
        }
        book
    }

    #[test]
    fn full_books(rt: HostRuntime) -> Result<(), Fail> {
        let book = removals();
        let printed = page(rt.alloc(), &book, &book)?;
        // The offsets of the office's 2,048 lines have 7,637 digits together, and so have the tablet's.
        assert!(rt; printed.len() == 2 * (2048 * 10 + 7637) + 18);
        let end = b"tablet 4094 7\nperiod 24 bound 1\n";
        assert!(rt; &printed.as_slice()[printed.len() - 32..] == end.as_slice());
        Ok(())
    }
}
