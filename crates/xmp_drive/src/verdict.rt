// The verdict on a text.
ghost use Rattle.std.specs.Prelude.{◌≡◌, ◌≢◌, ◌≤◌, ◌⊎◌, ℕ, OnOk, Option, IfOk, IfErr, IsTrue, None, Some, length, option_map, true};
ghost use Rattle.xmp_base.specs.declared.refusal.Refusal.{Refusal};
ghost use Rattle.xmp_base.specs.declared.refusal.Fault.TheVariants as fault;
ghost use Rattle.xmp_prog.specs.declared.parts.ProgParts.{ProgParts};
ghost use Rattle.xmp_prog.specs.declared.parts.Kind.TheVariants as kind;
ghost use Rattle.xmp_parts.specs.Narrow.{is_count};
ghost use Rattle.xmp_parts.specs.Parts.{IsParts};
ghost use Rattle.xmp_parts.specs.Verdict.{IsVerdict};
ghost use Rattle.xmp_fits.specs.NumbersLie.{tree_lies};
ghost use Rattle.xmp_drive.specs.Verdict.{IsAccepted, IsRefused, IsTreeFault, IsTreeVerdict, IsFlowFault, IsVerdictFault, Judged, arrays_of, first_coarray};

use crate::accepted::Accepted;
use crate::coarrays::coarray_of;
use crate::laws::{never_accepted_and_refused, one_refusal};
use std::alloc::Global;
use std::mem::drop;
use xmp_base::{Fault, Phase, Refusal};
use xmp_elab::{elaborate, text_numbers_lie};
use xmp_flow::check;
use xmp_prog::{Kind, Prog};
use xmp_source::tree_of;
use xmp_syntax::Tree;

// What the tree of a program with a coarray is refused for.
fn coarray_fault(alloc: Global, t: &Tree, given: Option<u32>) -> Fault
    requires named { IsVerdict t.now given None }
    requires coarray { first_coarray (arrays_of t.now given) ≢ None }
    ensures { IsTreeFault t.now given result }
{
    match coarray_of(alloc, t, given) {
        Ok(Some(at)) => Fault::Refused(Refusal {
            phase: Phase::Coarray,
            rule: 9,
            at,
        }),
        Ok(None) => unreachable!(),
        Err(_) => Fault::NoMemory,
    }
}

// The verdict on a typed program.
fn judged_program(alloc: Global, prog: Prog) -> Result<Accepted, Fault>
    requires { prog.kind ≡ kind.Global }
    ensures accepted { IfOk result (λ p. (p ≡ prog) × Judged prog None) }
    ensures refused { IfErr result (λ e. IsFlowFault prog e) }
{
    match check(alloc, &prog) {
        Ok(None) => Ok(Accepted::new(prog)),
        Ok(Some(refusal)) => {
            drop(prog);
            Err(Fault::Refused(refusal))
        }
        Err(_) => {
            drop(prog);
            Err(Fault::NoMemory)
        }
    }
}

// The verdict on a tree.
fn judged_tree(alloc: Global, t: &Tree, given: Option<u32>) -> Result<Accepted, Fault>
    requires count { IsTrue (is_count given) }
    requires numbers { tree_lies t.now ≡ true }
    ensures accepted { IfOk result (λ p. IsTreeVerdict t.now given None) }
    ensures program { IfOk result (λ p. IsParts t.now given p × Judged p None) }
    ensures refused { IfErr result (λ e. IsTreeFault t.now given e) }
{
    let prog = elaborate(alloc, t, given)?;
    match prog.kind() {
        Kind::Global => judged_program(alloc, prog),
        Kind::Coarray => {
            std::mem::drop(prog);
            Err(coarray_fault(alloc, t, given))
        }
    }
}

// The verdict on a text.
fn judged(alloc: Global, text: &[u8], given: Option<u32>) -> Result<Accepted, Fault>
    requires size { length text.now ≤ 1048576 }
    requires count { IsTrue (is_count given) }
    ensures accepted { IfOk result (λ p. IsAccepted text.now given p) }
    ensures refused { IfErr result (λ e. IsVerdictFault text.now given e) }
{
    let tree = tree_of(alloc, text)?;
    text_numbers_lie();
    judged_tree(alloc, &tree, given)
}

/// The verdict on a source text, for a number of nodes or none: the program, or its refusal by the first rule that it breaks. Want of memory may
/// be answered at any time.
///
/// A program is accepted where no rule breaks of the text, its macros, the syntax, names, mappings or the flow of copies, and
/// it declares no coarray: programs with coarrays are refused as yet, by the rule 9 of coarrays.
///
/// A text has at most 1,048,576 bytes, a number of nodes is 1 to 16. Time and memory grow with the text, and with what its macros come to.
pub fn compile(alloc: Global, text: &[u8], nodes: Option<u32>) -> Result<Accepted, Fault>
    requires size { length text.now ≤ 1048576 }
    requires count { IsTrue (is_count nodes) }
    ensures accepted { IfOk result (λ p. IsAccepted text.now nodes p) }
    ensures refused { IfErr result (λ e. IsVerdictFault text.now nodes e) }
    ensures accepted_alone { (p : ProgParts) → IsAccepted text.now nodes p → IfErr result (λ e. e ≡ fault.NoMemory) }
    ensures refused_alone { (r : Refusal) → IsRefused text.now nodes r
        → OnOk result ⊥ × IfErr result (λ e. (e ≡ fault.Refused r) ⊎ (e ≡ fault.NoMemory)) }
{
    never_accepted_and_refused();
    one_refusal();
    judged(alloc, text, nodes)
}
