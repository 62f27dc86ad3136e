//! A machine of any kind that goes from stop to stop: what its steps, its stops and its runs have to do with each other.
#![tactic(auto)]

ghost use Rattle.std.specs.Prelude.{◌≡◌, ℕ, Option, Some, Bool, true, false};
ghost use Rattle.xmp_steps.specs.Machine.{Next, Ends, Stopping, Is, within, until};
ghost use Rattle.xmp_steps.specs.Laws.{OneStop, MoreFindsTheSame, StepsComeNearer, RunsComeNearer, StopsAreFound, StopsThatComeAreFound, FedIsStopping, LoopsEnd};
ghost use Rattle.xmp_steps.specs.Examples.{countdown, from_nine};

/// Of machines whose states are `S` and whose stops are `P`.
pub fn every_machine<S, P>()
    ensures one { (next : S → Next S P) → OneStop next }
    ensures number { (next : S → Next S P) (s : S) → IsProp (Ends next s) }
    ensures more { (next : S → Next S P) → MoreFindsTheSame next }
    ensures step { (next : S → Next S P) → StepsComeNearer next }
    ensures steps { (next : S → Next S P) → RunsComeNearer next }
    ensures stop { (next : S → Next S P) → StopsAreFound next }
    ensures found { (next : S → Next S P) → StopsThatComeAreFound next }
    ensures fed { (next : S → Next S P) (resume : P → S → Option S) → FedIsStopping next resume }
    ensures loops { (done : S → Bool) (turn : S → S) → LoopsEnd done turn }
{}

/// A machine that counts down from 12 stops at 10 and, resumed at 9, at 0.
pub fn countdown_stops_twice()
    ensures first { within countdown 2 12 ≡ Some (false, 10) }
    ensures number { Ends countdown 12 }
    ensures both { Stopping countdown from_nine (Is 0) 12 }
{}
