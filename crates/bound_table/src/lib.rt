// Sheets beside their period bound and their waits, worked out by hand.
#![tactic(auto)]

#[cfg(test)]
mod tests {
    use bound::period_bound;
    use checked::CheckedSheet;
    use kinds::{Counted, Hours};
    use sheet::{OtherPeriod, Rule, Sheet, Source, Step};
    use std::process::Abort;
    use std::test::Fail;
    use waits::wait_chart;

    fn after(u: u8, v: u8, gap: u16, carry: u8) -> Rule {
        Rule::After { u, v, gap, carry }
    }

    // A sheet of steps 1, 2 and so on with these durations, and of rules 1, 2 and so on.
    fn sheet_of(span: u16, durations: &[u16], rules: &[Rule]) -> Sheet {
        let mut sheet = Sheet::empty();
        sheet.span = span;
        for (number, duration) in (1..=31u8).zip(durations) {
            sheet.set_step(
                number,
                Some(Step {
                    duration: *duration,
                    kind: 0,
                    name: *b"STEP    ",
                }),
            );
        }
        for (number, rule) in (1..=96u8).zip(rules) {
            sheet.set_rule(number, *rule);
        }
        sheet
    }

    fn three_steps() -> Sheet {
        sheet_of(
            60,
            &[6, 20, 4],
            &[after(1, 2, 0, 0), after(2, 3, 0, 0), after(3, 2, 2, 2)],
        )
    }

    // The bound, or 0 where it is refused, and the first two codes.
    fn bound_of<S: Source>(source: &S) -> (u16, u16, u16) {
        let mut hours = [Hours { hours: 0 }; 1024];
        let mut counted = [Counted { hours: 0, links: 0 }; 1024];
        let mut codes = [0u16; 32];
        match period_bound(source, &mut hours, &mut counted, &mut codes) {
            Ok(bound) => (bound, codes[0], codes[1]),
            Err(_) => (0, codes[0], codes[1]),
        }
    }

    fn bound_is(rt: &impl Abort, sheet: Sheet, bound: u16) -> Result<(), Fail> {
        let Some(source) = CheckedSheet::new(sheet) else {
            return Err(Fail::new("a limit is broken"));
        };
        assert!(rt; bound_of(&source).0 == bound);
        Ok(())
    }

    #[test]
    fn bounds(rt: HostRuntime) -> Result<(), Fail> {
        bound_is(&rt, three_steps(), 20)?;
        bound_is(&rt, Sheet::empty(), 1)?;
        // a second-order filter section: 4 then 2 within one carry, 3 then 1 then 2 within two
        let rules = [
            after(4, 2, 0, 0),
            after(2, 4, 0, 1),
            after(3, 1, 0, 0),
            after(1, 2, 0, 0),
            after(2, 3, 0, 2),
        ];
        bound_is(&rt, sheet_of(100, &[1, 1, 2, 2], &rules), 3)?;
        // step 2 waits 6 hours and may wait 5
        let tight = sheet_of(
            60,
            &[6, 1],
            &[
                after(1, 2, 0, 0),
                Rule::Within {
                    u: 1,
                    v: 2,
                    hours: 5,
                },
            ],
        );
        let Some(source) = CheckedSheet::new(tight) else {
            return Err(Fail::new("a limit is broken"));
        };
        let told = bound_of(&source);
        assert!(rt; told.0 == 0);
        assert!(rt; told.1 == 1 && told.2 == 2 || told.1 == 2 && told.2 == 1);
        Ok(())
    }

    #[test]
    fn waits(rt: HostRuntime) -> Result<(), Fail> {
        let Some(source) = CheckedSheet::new(three_steps()) else {
            return Err(Fail::new("a limit is broken"));
        };
        let mut hours = [Hours { hours: 0 }; 1024];
        let mut counted = [Counted { hours: 0, links: 0 }; 1024];
        let mut chart = [7i16; 1025];
        let mut codes = [7u16; 33];
        assert!(rt; wait_chart(&source, &mut hours, &mut counted, &mut chart, &mut codes).is_ok());
        assert!(rt; chart[3] == 26 && chart[96] == -56 && chart[98] == -42);
        assert!(rt; chart[4] == -32768 && chart[1024] == 7 && codes[0] == 7);
        let faster = OtherPeriod {
            below: &source,
            period: 19,
        };
        assert!(rt; wait_chart(&faster, &mut hours, &mut counted, &mut chart, &mut codes).is_err());
        assert!(rt; codes[0] == 402 && codes[1] == 7);
        assert!(rt; chart[3] == 26);
        assert!(rt;
            wait_chart(
                &faster,
                &mut hours,
                &mut counted,
                &mut chart,
                &mut codes[0..31],
            )
            .is_err()
        );
        Ok(())
    }
}
