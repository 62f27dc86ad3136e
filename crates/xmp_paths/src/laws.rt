// Laws of plans: each has one verdict, and it breaks no rule exactly where it is safe.
ghost use Rattle.std.specs.Prelude.{◌≡◌, ◌↔◌, ◌||◌, ℕ, Bool, true, false, List, Option};
ghost use Rattle.xmp_base.specs.declared.refusal.Phase.{Phase};
ghost use Rattle.xmp_base.specs.declared.refusal.Refusal.{Refusal};
ghost use Rattle.xmp_base.specs.First.{IsFirst};
ghost use Rattle.xmp_paths.specs.declared.event.Event.{Event};
ghost use Rattle.xmp_paths.specs.Plans.{Plan, Path, sequence, branch, loop};
ghost use Rattle.xmp_paths.specs.Rules.{Broken, Breaks, in_phase};
ghost use Rattle.xmp_paths.specs.Safe.{left, Safe, NothingWrong};

/// Each plan has one verdict: the first rule that breaks in it, or that none does.
pub fn one_verdict()
    ensures some { (phase : Phase) (plan : Plan Event)
        → (found : Option Refusal) × IsFirst (in_phase phase (Breaks plan)) found }
    ensures one { (phase : Phase) (plan : Plan Event) (x y : Option Refusal)
        → IsFirst (in_phase phase (Breaks plan)) x → IsFirst (in_phase phase (Breaks plan)) y → x ≡ y }
{}

/// No rule breaks in a plan exactly where it is safe on each node, from copies that are all current, and nothing in it
/// is wrong.
pub fn safe_or_broken()
    ensures { (plan : Plan Event) → ((b : Broken) → Breaks plan b → ⊥)
        ↔ (((node : ℕ) → Safe node plan (λ object. false)) × NothingWrong plan) }
{}

/// What is safe stays safe: along a sequence, in each branch, and at the head of each turn of a loop.
pub fn safe_along_paths()
    ensures in_sequence { (node : ℕ) (p q : Plan Event) (stale : ℕ → Bool) → Safe node (sequence p q) stale
        ↔ (Safe node p stale × ((way : List Event) → Path p way → Safe node q (left node way stale))) }
    ensures in_branch { (node : ℕ) (p q : Plan Event) (stale : ℕ → Bool) → Safe node (branch p q) stale
        ↔ (Safe node p stale × Safe node q stale) }
    ensures turns { (node : ℕ) (p : Plan Event) (stale : ℕ → Bool) → Safe node (loop p) stale
        ↔ Safe node (sequence p (loop p)) stale }
    ensures fewer { (node : ℕ) (p : Plan Event) (stale less : ℕ → Bool)
        → ((object : ℕ) → less object ≡ true → stale object ≡ true) → Safe node p stale → Safe node p less }
{}
