// Faulty cards beside their first fault, worked out by hand from the format.
#![tactic(auto)]

#[cfg(test)]
mod tests {
    use card::{CardCause, CardFault, check as check_card};
    use std::process::Abort;

    struct Row {
        card: &'static [u8],
        cause: CardCause,
        offset: usize,
    }

    fn all(rt: &impl Abort, rows: &[Row]) {
        for row in rows {
            let fault = CardFault {
                cause: row.cause,
                offset: row.offset,
            };
            assert_eq!(rt; check_card(row.card), Err(fault), "a row of the table");
        }
    }

    #[test]
    fn sound(rt: HostRuntime) {
        assert_eq!(rt; check_card(b"\x08\x03\xE7\x09\x07\xD0"), Ok(()));
        assert_eq!(rt;
            check_card(
                b"\x08\x00\x01\x09\x00\x01\x01\x1F\x03\xE7\x07 ~ ~ ~ ~\x05\x60\x1F\x1F\x03\xE7",
            ),
            Ok(())
        );
        // Rules that contradict each other are no fault.
        assert_eq!(rt;
            check_card(
                b"\x08\x00\x18\x09\x00\x18\x01\x01\x00\x01\x00A       \x06\x01\x01\x00\x01\x06\x02\x01\x00\x02",
            ),
            Ok(())
        );
    }

    #[test]
    fn period_and_span(rt: HostRuntime) {
        all(
            &rt,
            &[
                Row {
                    card: b"",
                    cause: CardCause::OutOfPlace,
                    offset: 0,
                },
                Row {
                    card: b"\x08\x00\x18",
                    cause: CardCause::OutOfPlace,
                    offset: 3,
                },
                Row {
                    card: b"\x0B",
                    cause: CardCause::UnknownByte,
                    offset: 0,
                },
                Row {
                    card: b"\x08\x00",
                    cause: CardCause::CutOff,
                    offset: 0,
                },
                // cut off before out of place
                Row {
                    card: b"\x09\x00",
                    cause: CardCause::CutOff,
                    offset: 0,
                },
                Row {
                    card: b"\x09\x00\x3C",
                    cause: CardCause::OutOfPlace,
                    offset: 0,
                },
                // out of place before out of limits
                Row {
                    card: b"\x09\x00\x00",
                    cause: CardCause::OutOfPlace,
                    offset: 0,
                },
                Row {
                    card: b"\x08\x00\x00",
                    cause: CardCause::OutOfLimits,
                    offset: 0,
                },
                Row {
                    card: b"\x08\x03\xE8",
                    cause: CardCause::OutOfLimits,
                    offset: 0,
                },
                Row {
                    card: b"\x08\x00\x18\x09\x00\x00",
                    cause: CardCause::OutOfLimits,
                    offset: 3,
                },
                Row {
                    card: b"\x08\x00\x18\x09\x07\xD1",
                    cause: CardCause::OutOfLimits,
                    offset: 3,
                },
                Row {
                    card: b"\x08\x00\x18\x09\x00\x3C\x08\x00\x18",
                    cause: CardCause::OutOfPlace,
                    offset: 6,
                },
                Row {
                    card: b"\x08\x00\x18\x09\x00\x3C\x02\x01",
                    cause: CardCause::OutOfPlace,
                    offset: 6,
                },
                Row {
                    card: b"\x08\x00\x18\x09\x00\x3C\x0A\x01\x01",
                    cause: CardCause::OutOfPlace,
                    offset: 6,
                },
                // longer than any card, before the unknown byte at its front
                Row {
                    card: &[0; 4097],
                    cause: CardCause::TooLong,
                    offset: 0,
                },
                Row {
                    card: &[0; 4096],
                    cause: CardCause::UnknownByte,
                    offset: 0,
                },
            ],
        );
    }

    #[test]
    fn steps(rt: HostRuntime) {
        all(
            &rt,
            &[
                Row {
                    card: b"\x08\x00\x18\x09\x00\x3C\x01\x00\x00\x06\x00MASH    ",
                    cause: CardCause::OutOfLimits,
                    offset: 6,
                },
                Row {
                    card: b"\x08\x00\x18\x09\x00\x3C\x01\x20\x00\x06\x00MASH    ",
                    cause: CardCause::OutOfLimits,
                    offset: 6,
                },
                Row {
                    card: b"\x08\x00\x18\x09\x00\x3C\x01\x01\x00\x00\x00MASH    ",
                    cause: CardCause::OutOfLimits,
                    offset: 6,
                },
                Row {
                    card: b"\x08\x00\x18\x09\x00\x3C\x01\x01\x03\xE8\x00MASH    ",
                    cause: CardCause::OutOfLimits,
                    offset: 6,
                },
                Row {
                    card: b"\x08\x00\x18\x09\x00\x3C\x01\x01\x00\x06\x08MASH    ",
                    cause: CardCause::OutOfLimits,
                    offset: 6,
                },
                Row {
                    card: b"\x08\x00\x18\x09\x00\x3C\x01\x01\x00\x06\x00MASH   \x1F",
                    cause: CardCause::OutOfLimits,
                    offset: 6,
                },
                Row {
                    card: b"\x08\x00\x18\x09\x00\x3C\x01\x01\x00\x06\x00\x7FASH    ",
                    cause: CardCause::OutOfLimits,
                    offset: 6,
                },
                // numbers that do not rise, the second of them out of limits too
                Row {
                    card: b"\x08\x00\x18\x09\x00\x3C\x01\x01\x00\x06\x00MASH    \x01\x01\x00\x06\x00MASH    ",
                    cause: CardCause::OutOfPlace,
                    offset: 19,
                },
                Row {
                    card: b"\x08\x00\x18\x09\x00\x3C\x01\x02\x00\x06\x00MASH    \x01\x00\x00\x06\x00MASH    ",
                    cause: CardCause::OutOfPlace,
                    offset: 19,
                },
            ],
        );
    }

    #[test]
    fn rules(rt: HostRuntime) {
        all(
            &rt,
            &[
                Row {
                    card: b"\x08\x00\x18\x09\x00\x3C\x04\x01\x01\x01\x00\x00\x00",
                    cause: CardCause::OutOfLimits,
                    offset: 6,
                },
                Row {
                    card: b"\x08\x00\x18\x09\x00\x3C\x01\x01\x00\x06\x00MASH    \x04\x00\x01\x01\x00\x00\x00",
                    cause: CardCause::OutOfLimits,
                    offset: 19,
                },
                Row {
                    card: b"\x08\x00\x18\x09\x00\x3C\x01\x01\x00\x06\x00MASH    \x04\x61\x01\x01\x00\x00\x00",
                    cause: CardCause::OutOfLimits,
                    offset: 19,
                },
                Row {
                    card: b"\x08\x00\x18\x09\x00\x3C\x01\x01\x00\x06\x00MASH    \x04\x01\x01\x02\x00\x00\x00",
                    cause: CardCause::OutOfLimits,
                    offset: 19,
                },
                Row {
                    card: b"\x08\x00\x18\x09\x00\x3C\x01\x01\x00\x06\x00MASH    \x04\x01\x01\x01\x03\xE8\x00",
                    cause: CardCause::OutOfLimits,
                    offset: 19,
                },
                Row {
                    card: b"\x08\x00\x18\x09\x00\x3C\x01\x01\x00\x06\x00MASH    \x04\x01\x01\x01\x00\x00\x08",
                    cause: CardCause::OutOfLimits,
                    offset: 19,
                },
                Row {
                    card: b"\x08\x00\x18\x09\x00\x3C\x01\x01\x00\x06\x00MASH    \x05\x01\x01\x01\x03\xE8",
                    cause: CardCause::OutOfLimits,
                    offset: 19,
                },
                Row {
                    card: b"\x08\x00\x18\x09\x00\x3C\x01\x01\x00\x06\x00MASH    \x06\x01\x01\x07\xD0",
                    cause: CardCause::OutOfLimits,
                    offset: 19,
                },
                Row {
                    card: b"\x08\x00\x18\x09\x00\x3C\x01\x01\x00\x06\x00MASH    \x06\x02\x01\x00\x00\x06\x02\x01\x00\x00",
                    cause: CardCause::OutOfPlace,
                    offset: 24,
                },
                Row {
                    card: b"\x08\x00\x18\x09\x00\x3C\x01\x01\x00\x06\x00MASH    \x06\x02\x01\x00\x00\x01\x02\x00\x06\x00CROP    ",
                    cause: CardCause::OutOfPlace,
                    offset: 24,
                },
            ],
        );
    }
}
