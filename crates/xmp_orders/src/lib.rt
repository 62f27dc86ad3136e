//! Things that move one at a time: what brings all of them to their end, in lockstep and in every order.
#![tactic(auto)]

ghost use Rattle.std.specs.Prelude.{ℕ, List};
ghost use Rattle.xmp_orders.specs.Movers.{Movers, AllEnded, run, rounds};
ghost use Rattle.xmp_orders.specs.Choices.{EndsBy, FirstsPickSteps};
ghost use Rattle.xmp_orders.specs.Progress.{Progress, AllEndFrom};
ghost use Rattle.xmp_orders.specs.Examples.{counters, two_and_three, in_turn};

/// Things that move, what their world keeps, and how far they have come.
pub trait Moving {
    type World;

    type Known;

    ghost movers: { Movers Self.World };

    ghost on: { Self.World → Self.Known → Type 0 };

    ghost far: { Self.World → Self.Known → ℕ };

    ghost most: { ℕ };
}

/// Of things that make progress.
pub fn every_order<T: Moving>()
    requires progress { Progress T.movers T.on T.far T.most }
    ensures ends { (w : T.World) (known : T.Known) → T.on w known → AllEndFrom T.movers T.most w }
    ensures ordered { FirstsPickSteps T.movers }
{}

/// Two counters come to their end in three rounds, and by the choice of the first that can count.
pub fn two_counters_end()
    ensures lockstep { AllEnded counters (run counters (rounds 2 3) two_and_three) }
    ensures chosen { (x : ℕ) → (ks : List ℕ) × EndsBy counters 5 in_turn x two_and_three ks }
{}
