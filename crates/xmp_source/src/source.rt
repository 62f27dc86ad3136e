// The tree of a text.
ghost use Rattle.std.specs.Prelude.{◌≡◌, ◌≤◌, IfOk, IfErr, length};
ghost use Rattle.xmp_base.specs.declared.refusal.Fault.TheVariants as fault;
ghost use Rattle.xmp_lex.specs.Cut.{Cut};
ghost use Rattle.xmp_lex.specs.Lines.{IsFinished, IsClosed};
ghost use Rattle.xmp_source.specs.Source.{Comes, IsTreeOf, IsSourceFault};

use crate::laws::never_tree_and_refused;
use std::alloc::Global;
use std::vec::Vec;
use xmp_base::Fault;
use xmp_lex::{Token, expand, lex};
use xmp_parse::parse;
use xmp_syntax::Tree;

/// The tokens that a text comes to, their definitions replaced.
fn expanded(alloc: Global, text: &[u8]) -> Result<Vec<Token>, Fault>
    requires size { length text.now ≤ 1048576 }
    ensures comes { IfOk result (λ ts. Comes text.now ts.items) }
    ensures finished { IfOk result (λ ts. IsFinished ts.items) }
    ensures fault { IfErr result (λ e. IsSourceFault text.now e) }
{
    let tokens = lex(alloc, text)?;
    expand(alloc, tokens)
}

/// The tree of a text, or its first refusal.
fn judged(alloc: Global, text: &[u8]) -> Result<Tree, Fault>
    requires size { length text.now ≤ 1048576 }
    ensures tree { IfOk result (λ x. IsTreeOf text.now x) }
    ensures fault { IfErr result (λ e. IsSourceFault text.now e) }
{
    let tokens = expanded(alloc, text)?;
    parse(alloc, tokens.as_slice())
}

/// The tree of a program's text. A text that is no program is refused at the first place of the first phase (text, macros,
/// syntax) in which a rule breaks. Want of memory may be answered at any time.
///
/// A text has at most 1,048,576 bytes. Time and memory grow with its length and with the tokens that it comes to.
pub fn tree_of(alloc: Global, text: &[u8]) -> Result<Tree, Fault>
    requires size { length text.now ≤ 1048576 }
    ensures tree { IfOk result (λ x. IsTreeOf text.now x) }
    ensures fault { IfErr result (λ e. IsSourceFault text.now e) }
    ensures no_other { (x : Tree) → IsTreeOf text.now x → IfErr result (λ e. e ≡ fault.NoMemory) }
{
    never_tree_and_refused();
    judged(alloc, text)
}
