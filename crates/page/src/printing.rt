ghost use Rattle.std.specs.Prelude.{◌≡◌, ◌≤◌, ◌++◌, IfOk, None, OnOk};
ghost use Rattle.std.specs.List.{flat_map};
ghost use Rattle.lines.specs.Texts.{text_of};
ghost use Rattle.planner.specs.Entering.{sheet_of};
ghost use Rattle.planner.specs.Rules.{Possible};
ghost use Rattle.sheet.specs.Sheets.{numbered, rule_sheet};
ghost use Rattle.sheet.specs.Waits.{IsBound};
ghost use Rattle.page.specs.Parts.{text_if, StepAdded, StepsAdded, SheetAdded, PageAdded};
ghost use Rattle.page.specs.Pages.{report_line, LineOf, Page};

use book::BOOK_LIMIT;
use bound::period_bound;
use kinds::{Counted, Hours};
use lines::Line;
use merge::{Report, merge};
use planner::Planner;
use sheet::Source;
use std::alloc::{AllocError, Global};

fn add_line(text: &mut Vec<u8>, line: Line) -> Result<(), AllocError>
    ensures { OnOk result (text.new.items ≡ text.old.items ++ text_of line) }
{
    let mut buffer = [0; 32];
    match line.write(&mut buffer) {
        Ok(length) => text.extend_from_slice(&buffer[..length]),
        Err(_) => unreachable!(),
    }
}

fn add_reports(text: &mut Vec<u8>, reports: &[Report]) -> Result<(), AllocError>
    ensures { OnOk result (text.new.items ≡ text.old.items ++ flat_map report_line reports.now) }
{
    for report in reports {
        let report = *report;
        add_line(text, Line::Reported { report })?;
    }
    Ok(())
}

// The line of a step, if the step is there.
fn step_line(planner: &Planner, number: u8) -> Option<Line>
    requires low { 1 ≤ number }
    requires high { number ≤ 31 }
    ensures { LineOf (sheet_of planner.now) number
        (numbered None (sheet_of planner.now).steps number) (text_if result) }
{
    match (planner.name(number), planner.window(number)) {
        (Ok(name), Ok((earliest, latest))) => Some(Line::Step {
            number,
            name,
            earliest,
            latest,
        }),
        _ => None,
    }
}

fn add_step(text: &mut Vec<u8>, planner: &Planner, number: u8) -> Result<(), AllocError>
    requires low { 1 ≤ number }
    requires high { number ≤ 31 }
    ensures { OnOk result (StepAdded (sheet_of planner.now) number text.old.items text.new.items) }
{
    match step_line(planner, number) {
        Some(line) => add_line(text, line),
        None => Ok(()),
    }
}

fn add_steps(text: &mut Vec<u8>, planner: &Planner) -> Result<(), AllocError>
    ensures { OnOk result (StepsAdded (sheet_of planner.now) 31 text.old.items text.new.items) }
{
    for number in 1..32u8 {
        add_step(text, planner, number)?;
    }
    Ok(())
}

// The bound of a sheet that has a lawful timetable, as a planner's always has.
fn bound_of(planner: &Planner) -> u16
    requires { Possible (sheet_of planner.now) }
    ensures { IsBound (rule_sheet (sheet_of planner.now)) result }
{
    let mut hours = [Hours { hours: 0 }; 1024];
    let mut counted = [Counted { hours: 0, links: 0 }; 1024];
    let mut codes = [0; 32];
    match period_bound(planner, &mut hours, &mut counted, &mut codes) {
        Ok(bound) => bound,
        Err(_) => unreachable!(),
    }
}

// The reports, then the period and the bound, then the steps.
fn add_sheet(text: &mut Vec<u8>, planner: &Planner, reports: &[Report]) -> Result<(), AllocError>
    requires { Possible (sheet_of planner.now) }
    ensures { OnOk result (
        SheetAdded (sheet_of planner.now) reports.now text.old.items text.new.items) }
{
    add_reports(text, reports)?;
    let period = planner.period();
    let bound = bound_of(planner);
    add_line(text, Line::Period { period, bound })?;
    add_steps(text, planner)
}

// The longest list of reports: half of each book's bytes.
const MOST_REPORTS: usize = BOOK_LIMIT;

// Merges the two books into an empty planner and adds what is printed of it.
fn add_page(text: &mut Vec<u8>, office: &[u8], tablet: &[u8]) -> Result<(), AllocError>
    ensures { OnOk result (PageAdded office.now tablet.now text.old.items text.new.items) }
{
    let mut planner = Planner::empty();
    let mut hours = [Hours { hours: 0 }; 1024];
    let mut reports = [Report::BLANK; MOST_REPORTS];
    match merge(&mut planner, office, tablet, &mut hours, &mut reports) {
        Ok(count) => add_sheet(text, &planner, &reports[..count]),
        Err(refusal) => {
            let number = refusal.number();
            add_line(text, Line::Refused { number })
        }
    }
}

// The whole printed sheet of the office's and the tablet's book, merged into an empty planner.
pub fn page(heap: Global, office: &[u8], tablet: &[u8]) -> Result<Vec<u8>, AllocError>
    ensures { IfOk result (λ text. Page office.now tablet.now text.items) }
{
    let mut text = Vec::new(heap);
    add_page(&mut text, office, tablet)?;
    Ok(text)
}
