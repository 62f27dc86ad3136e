//! Scripts of one-sided words, and images that carry them: in every order of their steps each get finds what its image sees,
//! and all come to one end.
#![tactic(auto)]

ghost use Rattle.std.specs.Prelude.{◌≡◌, ℕ, ◌<◌, List};
ghost use Rattle.xmp_orders.specs.Movers.{AllEnded, rounds};
ghost use Rattle.xmp_orders.specs.Choices.{EndsBy};
ghost use Rattle.xmp_script.specs.Script.{Script, IsFree, seen};
ghost use Rattle.xmp_script.specs.LastPuts.{IsSeen};
ghost use Rattle.xmp_script.specs.Images.{Images};
ghost use Rattle.xmp_script.specs.Carries.{AllCarry};
ghost use Rattle.xmp_script.specs.Walkers.{walkers};
ghost use Rattle.xmp_script.specs.Laws.{GetsSee, EndsWithFinalWords, SeesLastPut, InEveryOrder, movers_of, begun_of, played};
ghost use Rattle.xmp_script.specs.Examples.{round_robin, keepers, in_turn};

/// Of scripts whose words have values `V`, and images whose states are `S`.
pub fn every_order<S, V>()
    ensures get { (s : Script V) → IsFree s → GetsSee s }
    ensures last { (s : Script V) → IsFree s → EndsWithFinalWords s }
    ensures one_seen { (s : Script V) → IsFree s → SeesLastPut s }
    ensures synced { (s : Script V) → IsFree s → 0 < s.images → 0 < s.phases → InEveryOrder (walkers s) s }
    ensures played { (im : Images S V) (s : Script V) → AllCarry im s → InEveryOrder im s }
{}

/// Three images write to the words of the next ones without conflict, and find the numbers of those before.
pub fn three_images_carry()
    ensures free { IsFree round_robin }
    ensures seen { (seen round_robin 0 1 0 0 ≡ 2) × (seen round_robin 1 1 0 1 ≡ 0) × (seen round_robin 2 1 0 2 ≡ 1) }
    ensures last_put { IsSeen round_robin 0 1 0 0 2 }
    ensures carry { AllCarry keepers round_robin }
    ensures chosen { (x : ℕ) → (ks : List ℕ) × EndsBy (movers_of keepers round_robin) 30 in_turn x (begun_of keepers round_robin) ks }
    ensures ended { AllEnded (movers_of keepers round_robin) (played keepers round_robin (rounds 3 6)) }
    ensures first { ((played keepers round_robin (rounds 3 6)).state 0).value ≡ 2 }
{}
