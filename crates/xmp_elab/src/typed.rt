// The typed program of a tree.
ghost use Rattle.std.specs.Prelude.{◌≡◌, IfErr, IfOk, IsTrue, None, true};
ghost use Rattle.xmp_parts.specs.Narrow.{is_count};
ghost use Rattle.xmp_parts.specs.Parts.{IsParts};
ghost use Rattle.xmp_parts.specs.Verdict.{IsFaultOf, IsVerdict};
ghost use Rattle.xmp_fits.specs.NumbersLie.{tree_lies};

use std::alloc::Global;
use xmp_base::Fault;
use xmp_fits::parts_fit;
use xmp_parts::elaborate_parts;
use xmp_prog::Prog;
use xmp_syntax::Tree;

/// The typed program of a tree, for a number of nodes or none, or the rule that it is refused for: the first rule of names
/// that it breaks, or, where it breaks none, the first rule of mappings. Want of memory may be answered at any time.
///
/// A number of nodes is 1 to 16. The numbers of a tree that `tree_of` gives lie in their types (`text_numbers_lie`).
pub fn elaborate(alloc: Global, t: &Tree, given: Option<u32>) -> Result<Prog, Fault>
    requires count { IsTrue (is_count given) }
    requires numbers { tree_lies t.now ≡ true }
    ensures accepted { IfOk result (λ p. IsVerdict t.now given None) }
    ensures program { IfOk result (λ p. IsParts t.now given p) }
    ensures refused { IfErr result (λ e. IsFaultOf t.now given e) }
{
    parts_fit();
    match elaborate_parts(alloc, t, given) {
        Ok(parts) => Ok(Prog::new(parts)),
        Err(fault) => Err(fault),
    }
}
