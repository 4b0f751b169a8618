// The laws of runs. A function here does nothing; its contract is the law, for all types that it is given.
ghost use Rattle.runs.specs.Counting.{CountsItsSteps};
ghost use Rattle.runs.specs.Guards.{GuardsOnlyBreak, LimitsOnlyBreak};
ghost use Rattle.runs.specs.Invariants.{HoldsOfEveryRun};
ghost use Rattle.runs.specs.Over.{StaysOver, OneCount};
ghost use Rattle.runs.specs.Runs.{TwoRunsAreOne};
ghost use Rattle.runs.specs.Squares.{CarriesOver, CarriesOverWhere};
ghost use Rattle.runs.specs.Walks.{StopsEarlyOnly, RestingChangesNothing, FinishedAtTheCount, EndedStays};
ghost use Rattle.runs.specs.Worked.{WorkedRuns};

// Something that may be said of states.
pub trait Claim {
    type State;

    ghost holds: { Self → Self.State → Type 0 };
}

// Steps in a row are one run, also if it is begun afresh where it rested.
pub fn two_runs_are_one<S, F, R>()
    ensures { TwoRunsAreOne S F R }
{}

// An invariant holds wherever a run rests that began where it holds.
pub fn holds_of_every_run<C: Claim, F, R>(claim: &C)
    ensures { HoldsOfEveryRun (C.Claim.holds claim.now) F R }
{}

// A commuting square of steps is one of runs.
pub fn carries_over<S, T, F, R>()
    ensures { CarriesOver S T F R }
{}

// The same for a square that commutes only where an invariant holds.
pub fn carries_over_where<C: Claim, T, F, R>(claim: &C)
    ensures { CarriesOverWhere (C.Claim.holds claim.now) T F R }
{}

// A run that is over stays as it is.
pub fn stays_over<S, F, R>()
    ensures { StaysOver S F R }
{}

// A run that is over has one count.
pub fn one_count<S, F, R>()
    ensures { OneCount S F R }
{}

// A guard changes nothing of a run but where it breaks.
pub fn guards_only_break<S, F, R>()
    ensures { GuardsOnlyBreak S F R }
{}

// The same of a limit that is tried as a step ends.
pub fn limits_only_break<S, F, R>()
    ensures { LimitsOnlyBreak S F R }
{}

// A machine that counts its steps has the same runs, and counts right.
pub fn counts_its_steps<S, F, R>()
    ensures { CountsItsSteps S F R }
{}

// An advance stops early only at a report, where the machine is done, or at a fault.
pub fn stops_early_only<S, F, R>()
    ensures { StopsEarlyOnly S F R }
{}

// Whatever was called, a walk is where the run of as many steps is.
pub fn resting_changes_nothing<S, F, R>()
    ensures { RestingChangesNothing S F R }
{}

// Whatever was called, a walk is finished exactly at the count.
pub fn finished_at_the_count<S, F, R>()
    ensures { FinishedAtTheCount S F R }
{}

// Whatever is called, a walk that is finished or fell stays as it is.
pub fn ended_stays<S, F, R>()
    ensures { EndedStays S F R }
{}

// The definitions at work on one small machine.
pub fn worked_runs()
    ensures { WorkedRuns }
{}
