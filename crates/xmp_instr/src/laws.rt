// What holds of every valid code.
ghost use Rattle.xmp_instr.specs.Laws.{AnsweredFit, BeginningFits, HeardFit, MutedFit, PassedFit, ResumedFit, MutedIsAlike, StepsAlike, StepsFit, StopsAlike, StuckOnly, ToldFit};

/// A node of a valid code fits the code from its first step on, also where it is served: its place is in the code, and its stack has
/// as many values as the depth says there, beside those below the open calls.
pub fn nodes_fit()
    ensures begin { BeginningFits }
    ensures step { StepsFit }
    ensures told { ToldFit }
    ensures heard { HeardFit }
    ensures resumed { ResumedFit }
    ensures answered { AnsweredFit }
    ensures passed { PassedFit }
    ensures muted { MutedFit }
{}

/// A node that fits a valid code has no next state in the listed cases alone.
#[tactic(auto, using(crate::proofs::Stuck::stuck_only))]
pub fn nodes_are_stuck_there_only()
    ensures { StuckOnly }
{}

/// Nodes that differ in text alone, as a node and the same node muted do, take the same steps to the same stops, and go on to differ in
/// text alone.
pub fn muted_nodes_are_alike()
    ensures muted { MutedIsAlike }
    ensures step { StepsAlike }
    ensures stop { StopsAlike }
{}
