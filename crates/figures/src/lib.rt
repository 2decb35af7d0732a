// The figures of the cellar's worked example: of the definitions, as a theorem, and of the library's answers, as tests.
#![tactic(auto)]

ghost use Rattle.figures.specs.Figures.{Figures};

// Every figure is what the definitions say.
pub fn figures_hold()
    ensures { Figures }
{}

#[cfg(test)]
mod tests {
    use bound::period_bound;
    use checked::CheckedSheet;
    use choose::{Chooser, Earliest, LeastCrowded};
    use kinds::{Counted, Hours};
    use plan::{PlanRefusal, plan};
    use sheet::{Rule, Sheet, Step};
    use std::test::Fail;
    use waits::{LoopRefusal, wait_chart};

    fn step(duration: u16, kind: u8, name: [u8; 8]) -> Option<Step> {
        Some(Step {
            duration,
            kind,
            name,
        })
    }

    fn after(u: u8, v: u8, gap: u16, carry: u8) -> Rule {
        Rule::After { u, v, gap, carry }
    }

    // Mash, ferment and crop, at a period.
    fn brew(period: u16) -> Sheet {
        let mut sheet = Sheet::empty();
        sheet.period = period;
        sheet.span = 60;
        sheet.set_step(1, step(6, 0, *b"MASH    "));
        sheet.set_step(2, step(20, 1, *b"FERMENT "));
        sheet.set_step(3, step(4, 2, *b"CROP    "));
        sheet.set_rule(1, after(1, 2, 0, 0));
        sheet.set_rule(2, after(2, 3, 0, 0));
        sheet.set_rule(3, after(3, 2, 2, 2));
        sheet
    }

    // The brew with rule 4: the crop starts at most so many hours after the mash.
    fn brew_within(hours: u16) -> Sheet {
        let mut sheet = brew(24);
        sheet.set_rule(4, Rule::Within { u: 1, v: 3, hours });
        sheet
    }

    // What the library tells of a sheet: the number that refuses its chart, or 0, with the number of codes written and
    // the first of them; the waits from hour zero to step 3, back, and from step 3 to step 2.
    #[derive(Clone, Copy)]
    struct Told {
        refused: u8,
        codes: (usize, u16),
        waits: (i16, i16, i16),
    }

    fn ask(source: &CheckedSheet) -> Told {
        let mut hours = [Hours { hours: 0 }; 1024];
        let mut counted = [Counted { hours: 0, links: 0 }; 1024];
        let mut chart = [0i16; 1024];
        let mut codes = [0u16; 32];
        let answer = wait_chart(source, &mut hours, &mut counted, &mut chart, &mut codes);
        let refused = match answer {
            Ok(()) => 0,
            Err(refusal) => refusal.number(),
        };
        let count = match answer {
            Err(LoopRefusal::NoTimetable { count }) => count,
            _ => 0,
        };
        Told {
            refused,
            codes: (count, codes[0]),
            waits: (chart[3], chart[96], chart[98]),
        }
    }

    fn told_of(sheet: Sheet) -> Result<Told, Fail> {
        match CheckedSheet::new(sheet) {
            Some(source) => Ok(ask(&source)),
            None => Err(Fail::new("a limit is broken")),
        }
    }

    // The bound, or 0 where there is none.
    fn bound_of(sheet: Sheet) -> u16 {
        let Some(source) = CheckedSheet::new(sheet) else {
            return 0;
        };
        let mut hours = [Hours { hours: 0 }; 1024];
        let mut counted = [Counted { hours: 0, links: 0 }; 1024];
        let mut codes = [0u16; 32];
        match period_bound(&source, &mut hours, &mut counted, &mut codes) {
            Ok(bound) => bound,
            Err(_) => 0,
        }
    }

    // The brew with a step 4 that takes so many hours of a vessel of the ferment's kind.
    fn brew_beside(hours: u16) -> Sheet {
        let mut sheet = brew(24);
        sheet.set_step(4, step(hours, 1, *b"STARTER "));
        sheet
    }

    // What the library plans with one vessel of each of the kinds 0, 1 and 2: the number that refuses it, or 0, with the
    // step that it names, and what is written of steps 1 to 4.
    #[derive(Clone, Copy)]
    struct Planned {
        refused: u8,
        step: u8,
        starts: [u16; 4],
        vessels: [u8; 4],
    }

    fn ask_plan<C: Chooser>(source: &CheckedSheet, chooser: &C) -> Planned {
        let mut hours = [Hours { hours: 0 }; 1024];
        let mut counted = [Counted { hours: 0, links: 0 }; 1024];
        let mut codes = [0u16; 32];
        let mut starts = [7u16; 31];
        let mut vessels = [7u8; 31];
        let answer = plan(
            source,
            &[1, 1, 1, 0, 0, 0, 0, 0],
            chooser,
            &mut hours,
            &mut counted,
            &mut codes,
            &mut starts,
            &mut vessels,
        );
        let refused = match answer {
            Ok(()) => 0,
            Err(refusal) => refusal.number(),
        };
        let step = match answer {
            Err(PlanRefusal::NoVessel { step }) => step,
            _ => 0,
        };
        Planned {
            refused,
            step,
            starts: [starts[0], starts[1], starts[2], starts[3]],
            vessels: [vessels[0], vessels[1], vessels[2], vessels[3]],
        }
    }

    fn plan_of<C: Chooser>(sheet: Sheet, chooser: &C) -> Result<Planned, Fail> {
        match CheckedSheet::new(sheet) {
            Some(source) => Ok(ask_plan(&source, chooser)),
            None => Err(Fail::new("a limit is broken")),
        }
    }

    // What the library tells beside the figure worked out by hand.
    #[derive(Clone, Copy)]
    struct Row {
        figure: &'static str,
        told: i32,
        due: i32,
    }

    fn beside(figure: &'static str, told: i32, due: i32) -> Row {
        Row { figure, told, due }
    }

    #[test]
    fn table(rt: HostRuntime) -> Result<(), Fail> {
        let day = told_of(brew(24))?;
        let short = told_of(brew(19))?;
        let plan = plan_of(brew(24), &Earliest)?;
        let crowded = plan_of(brew_beside(6), &Earliest)?;
        let calm = plan_of(brew_beside(4), &LeastCrowded)?;
        let rows = [
            beside("wait from hour zero to 3", day.waits.0 as i32, 26),
            beside("wait from 3 to hour zero", day.waits.1 as i32, -56),
            beside("wait from 3 to 2", day.waits.2 as i32, -42),
            beside("bound", bound_of(brew(24)) as i32, 20),
            beside("period 20", told_of(brew(20))?.refused as i32, 0),
            beside("period 19", short.refused as i32, 14),
            beside("period 19, first code", short.codes.1 as i32, 402),
            beside("within 26", told_of(brew_within(26))?.refused as i32, 0),
            beside("within 25", told_of(brew_within(25))?.refused as i32, 14),
            beside("earliest, step 1", plan.starts[0] as i32, 0),
            beside("earliest, step 2", plan.starts[1] as i32, 6),
            beside("earliest, step 3", plan.starts[2] as i32, 26),
            beside(
                "bound of an empty sheet",
                bound_of(Sheet::empty()) as i32,
                1,
            ),
            beside("6 hours under earliest", crowded.refused as i32, 40),
            beside("6 hours under earliest, step", crowded.step as i32, 4),
            beside("4 hours under least crowded", calm.starts[3] as i32, 2),
        ];
        assert!(rt; short.codes.0 == 1);
        for row in rows {
            assert!(rt; row.told == row.due, "{}", row.figure);
        }
        assert!(rt; plan.refused == 0 && plan.vessels == [1, 1, 1, 0] && plan.starts[3] == 65535);
        assert!(rt; crowded.starts == [7; 4] && crowded.vessels == [7; 4]);
        assert!(rt; calm.refused == 0 && calm.vessels == [1, 1, 1, 1]);
        Ok(())
    }
}
