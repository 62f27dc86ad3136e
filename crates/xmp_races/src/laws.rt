// Laws of the rules.
ghost use Rattle.std.specs.Prelude.{◌≡◌, Option};
ghost use Rattle.xmp_base.specs.declared.refusal.Refusal.{Refusal};
ghost use Rattle.xmp_base.specs.First.{IsFirst};
ghost use Rattle.xmp_prog.specs.declared.parts.ProgParts.{ProgParts};
ghost use Rattle.xmp_races.specs.Program.{CoarrayBreaks};

/// Each program has one answer: the first of the rules that break, or that none does.
pub fn programs_have_answers()
    ensures some { (p : ProgParts) → (found : Option Refusal) × IsFirst (CoarrayBreaks p) found }
    ensures one { (p : ProgParts) (x y : Option Refusal) → IsFirst (CoarrayBreaks p) x → IsFirst (CoarrayBreaks p) y → x ≡ y }
{}
