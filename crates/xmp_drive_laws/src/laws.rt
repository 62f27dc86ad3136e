// Laws of the verdict on a text.
ghost use Rattle.std.specs.Prelude.{◌⊎◌, ℕ, List, Option, IsTrue};
ghost use Rattle.xmp_base.specs.declared.refusal.Refusal.{Refusal};
ghost use Rattle.xmp_prog.specs.declared.parts.ProgParts.{ProgParts};
ghost use Rattle.xmp_parts.specs.Narrow.{is_count};
ghost use Rattle.xmp_drive.specs.Verdict.{IsAccepted, IsRefused};

use xmp_paths::one_verdict;

/// For each number of nodes that is missing or 1 to 16, each text is accepted as a typed program, or refused by a rule at a
/// place. (With the laws of xmp_drive: by exactly one of the two, and in one way.)
pub fn every_text_is_judged()
    ensures { (text : List ℕ) (given : Option ℕ) → IsTrue (is_count given)
        → ((p : ProgParts) × IsAccepted text given p) ⊎ ((r : Refusal) × IsRefused text given r) }
{
    one_verdict();
}
