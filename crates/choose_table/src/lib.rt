// Choosers and vessels on small examples, worked out by hand.
#![tactic(auto)]

#[cfg(test)]
mod choosers {
    use choose::{Chooser, Earliest, Latest, LeastCrowded, Shown};

    // A window, and the hours that earliest, latest and least crowded name.
    #[derive(Clone, Copy)]
    struct Row<'a> {
        shown: Shown<'a>,
        hours: (u16, u16, u16),
    }

    fn asked(
        duration: u16,
        first: u16,
        last: u16,
        crowd: &[u8],
        hours: (u16, u16, u16),
    ) -> Row<'_> {
        let shown = Shown {
            step: 7,
            duration,
            first,
            last,
            crowd,
        };
        Row { shown, hours }
    }

    #[test]
    fn table(rt: HostRuntime) {
        // The peaks of the classes 0 to 4 are 2, 1, 1, 3 and 3 at two hours.
        let five = [2, 0, 1, 0, 3];
        // A step of 20 hours from hour 6 on, in a period of a day, leaves the classes 2 to 5.
        let day = [
            1, 1, 0, 0, 0, 0, 1, 1, 1, 1, 1, 1, 1, 1, 1, 1, 1, 1, 1, 1, 1, 1, 1, 1,
        ];
        let rows = [
            // No class is shown, or none is covered: every peak is 0.
            asked(3, 5, 9, &[], (5, 9, 5)),
            asked(0, 2, 4, &[9, 9, 9], (2, 4, 2)),
            asked(2, 0, 9, &five, (0, 9, 1)),
            asked(2, 2, 4, &five, (2, 4, 2)),
            asked(2, 3, 6, &five, (3, 6, 6)),
            asked(2, 3, 5, &five, (3, 5, 5)),
            // Five hours and more cover every class.
            asked(5, 4, 8, &five, (4, 8, 4)),
            asked(7, 4, 8, &five, (4, 8, 4)),
            // The last hour lies before the first.
            asked(2, 10, 3, &five, (10, 10, 10)),
            // 65,530 is of class 0.
            asked(1, 65_530, 65_535, &five, (65_530, 65_535, 65_531)),
            asked(65_535, 65_535, 65_535, &[1], (65_535, 65_535, 65_535)),
            asked(4, 0, 56, &day, (0, 56, 2)),
            asked(5, 0, 56, &day, (0, 56, 0)),
        ];
        for row in &rows {
            let (earliest, latest, least_crowded) = row.hours;
            assert_eq!(rt; Earliest.choose(row.shown), earliest);
            assert_eq!(rt; Latest.choose(row.shown), latest);
            assert_eq!(rt; LeastCrowded.choose(row.shown), least_crowded);
        }
    }
}

#[cfg(test)]
mod giving {
    use std::process::Abort;
    use vessels::{Placed, Refusal, give_out, hours_until};

    // The first four steps with their start hours, the period, the stock of kind 1, and the numbers of these steps or
    // the step that finds no vessel. There is one vessel of each other kind, and the other steps are absent.
    #[derive(Clone, Copy)]
    struct Row {
        steps: [Option<Placed>; 4],
        period: u16,
        stock: u8,
        numbers: Result<[u8; 4], u8>,
    }

    fn placed(start: u16, duration: u16, kind: u8) -> Option<Placed> {
        Some(Placed {
            start,
            duration,
            kind,
        })
    }

    fn given(
        steps: [Option<Placed>; 4],
        period: u16,
        stock: u8,
        numbers: Result<[u8; 4], u8>,
    ) -> Row {
        Row {
            steps,
            period,
            stock,
            numbers,
        }
    }

    fn holds(rt: &impl Abort, row: &Row) {
        let mut steps = [None; 31];
        steps[0..4].copy_from_slice(&row.steps);
        let stock = [1, row.stock, 1, 1, 1, 1, 1, 1];
        let mut buffer = [0xEE; 33];
        let answer = give_out(&steps, row.period, &stock, &mut buffer);
        match row.numbers {
            Ok(numbers) => {
                assert_eq!(rt; answer, Ok(()));
                assert!(rt; &buffer[0..4] == numbers.as_slice());
                assert!(rt; &buffer[4..31] == [0; 27].as_slice());
                assert!(rt; &buffer[31..33] == [0xEE; 2].as_slice());
            }
            Err(step) => {
                assert_eq!(rt; answer, Err(Refusal::NoVessel(step)));
                assert!(rt; &buffer[0..33] == [0xEE; 33].as_slice());
            }
        }
        let mut short = [0xEE; 30];
        let refused = give_out(&steps, row.period, &stock, &mut short);
        assert_eq!(rt; refused, Err(Refusal::TooShort));
        assert!(rt; &short[0..30] == [0xEE; 30].as_slice());
    }

    #[test]
    fn table(rt: HostRuntime) {
        let mash = placed(0, 6, 0);
        // At 24 hours this covers the classes 6 to 23, 0 and 1.
        let ferment = placed(6, 20, 1);
        let crop = placed(26, 4, 2);
        let early = placed(0, 6, 1);
        // Shares classes with the one before and the one after it.
        let middle = placed(28, 6, 1);
        let late = placed(8, 4, 1);
        let rows = [
            given([None, None, None, None], 24, 1, Ok([0, 0, 0, 0])),
            given([mash, ferment, crop, early], 24, 2, Ok([1, 1, 1, 2])),
            given([mash, ferment, crop, early], 24, 1, Err(4)),
            // Without classes nothing is shared.
            given([mash, ferment, crop, early], 0, 1, Ok([1, 1, 1, 1])),
            given(
                [mash, ferment, crop, placed(2, 4, 1)],
                24,
                1,
                Ok([1, 1, 1, 1]),
            ),
            given(
                [mash, ferment, crop, placed(0, 0, 1)],
                24,
                1,
                Ok([1, 1, 1, 1]),
            ),
            given([mash, ferment, crop, placed(2, 4, 8)], 24, 1, Err(4)),
            given([early, middle, late, None], 24, 2, Ok([1, 2, 1, 0])),
            given([early, middle, late, None], 24, 1, Err(2)),
            given([None, None, early, late], 24, 0, Err(3)),
            // 65,535 is a start as any other, of class 15.
            given(
                [placed(65_535, 1, 1), placed(15, 1, 1), None, None],
                24,
                1,
                Err(2),
            ),
        ];
        for row in &rows {
            holds(&rt, row);
        }
        assert_eq!(rt; Refusal::TooShort.number(), 30);
        assert_eq!(rt; Refusal::NoVessel(4).number(), 40);
    }

    #[test]
    fn hours(rt: HostRuntime) {
        assert_eq!(rt; hours_until(6, 8, 24), 2);
        assert_eq!(rt; hours_until(8, 6, 24), 22);
        assert_eq!(rt; hours_until(30, 54, 24), 0);
        assert_eq!(rt; hours_until(65_535, 0, 24), 9);
        assert_eq!(rt; hours_until(8, 6, 0), 0);
    }
}
