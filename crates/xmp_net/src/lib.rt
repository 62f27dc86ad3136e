//! Nodes that exchange messages: in every order of their moves they come to the same end.
#![tactic(auto)]

ghost use Rattle.std.specs.Prelude.{◌≡◌, ℕ, ◌<◌, List};
ghost use Rattle.xmp_orders.specs.Movers.{AllEnded, rounds};
ghost use Rattle.xmp_orders.specs.Choices.{EndsBy};
ghost use Rattle.xmp_net.specs.Nodes.{Nodes, start, movers};
ghost use Rattle.xmp_net.specs.Traffic.{Traffic, AllCarry, most_steps};
ghost use Rattle.xmp_net.specs.Tables.{Carried};
ghost use Rattle.xmp_net.specs.Laws.{StaysOnCourse, AllEnd, OneEnd, EndsOwn, EndsEmpty, OneTraffic, OneTable, after};
ghost use Rattle.xmp_net.specs.Examples.{pair, told, in_turn};

/// Of nodes whose states are `S` and whose messages are `M`.
pub fn every_order<S, M>()
    ensures course { (n : Nodes S M) (all : Traffic M) → AllCarry n all → StaysOnCourse n all }
    ensures orders { (n : Nodes S M) (all : Traffic M) → AllCarry n all → AllEnd n all }
    ensures one { (n : Nodes S M) (all : Traffic M) → AllCarry n all → OneEnd n }
    ensures ends { (n : Nodes S M) (all : Traffic M) → AllCarry n all → EndsOwn n all }
    ensures empty { (n : Nodes S M) (all : Traffic M) → AllCarry n all → EndsEmpty n }
    ensures one_traffic { (n : Nodes S M) → 0 < n.count → OneTraffic n }
    ensures table { (n : Nodes S M) (all : Traffic M) (none : M) → AllCarry n all → Carried n none }
    ensures one_table { (n : Nodes S M) → 0 < n.count → OneTable n }
{}

/// Two nodes that tell each other their numbers carry a traffic, and three rounds bring them to their end.
pub fn two_nodes_carry()
    ensures carry { AllCarry pair told }
    ensures table { Carried pair 0 }
    ensures chosen { (x : ℕ) → (ks : List ℕ) × EndsBy (movers pair) (most_steps pair told) in_turn x (start pair) ks }
    ensures ended { AllEnded (movers pair) (after pair (rounds 2 3)) }
    ensures zero { ((after pair (rounds 2 3)).state 0).1 ≡ 7 }
    ensures one { ((after pair (rounds 2 3)).state 1).1 ≡ 8 }
{}
