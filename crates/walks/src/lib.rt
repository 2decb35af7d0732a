// Theorems on runs of links, loops and waits, each named by the contract of a function that does nothing. Their proofs
// are lemmas that later crates cite.
#![tactic(auto)]

ghost use Rattle.walks.specs.Theorems.{
  LawfulIsLinks,
  RunsBind,
  ClosedRunsForbid,
  ClosedMatricesTellWaits,
  UniqueAnswers,
  HeavyRunsHaveLoops,
  LongerPeriodsKeep,
  LoopsAreShort,
  WaitsAreSmall,
  CodesNameLinks,
};

pub fn lawful_is_links()
    ensures { LawfulIsLinks }
{}

pub fn runs_bind()
    ensures { RunsBind }
{}

pub fn closed_runs_forbid()
    ensures { ClosedRunsForbid }
{}

pub fn closed_matrices_tell_waits()
    ensures { ClosedMatricesTellWaits }
{}

pub fn unique_answers()
    ensures { UniqueAnswers }
{}

pub fn heavy_runs_have_loops()
    ensures { HeavyRunsHaveLoops }
{}

pub fn longer_periods_keep()
    ensures { LongerPeriodsKeep }
{}

pub fn loops_are_short()
    ensures { LoopsAreShort }
{}

pub fn waits_are_small()
    ensures { WaitsAreSmall }
{}

pub fn codes_name_links()
    ensures { CodesNameLinks }
{}
