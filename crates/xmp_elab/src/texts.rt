// Texts of programs, judged by their names and mappings.
ghost use Rattle.std.specs.Prelude.{◌≡◌};
ghost use Rattle.xmp_parts.specs.Narrow.{is_count};

use crate::laws::text_numbers_lie;
use crate::typed::elaborate;
use std::alloc::Global;
use std::mem::drop;
use std::process::Abort;
use std::test::Fail;
use xmp_base::{Fault, Phase, Place, Refusal};
use xmp_prog::Prog;
use xmp_source::tree_of;

/// Texts that are judged alike: the rule that each breaks and where, as `N1 at 1:14`, or nothing where each is a program; and the texts.
pub(crate) type Alike = (&'static str, &'static [&'static str]);

/// What stands before and behind each text of a table.
pub(crate) type Around = (&'static str, &'static str);

/// Nothing: the texts are whole programs.
pub(crate) const PROGRAM: Around = ("", "");

/// The letter of the rules of a phase.
pub(crate) fn letter(phase: Phase) -> char {
    match phase {
        Phase::Lex => 'L',
        Phase::Macro => 'E',
        Phase::Syntax => 'S',
        Phase::Procedure => 'Q',
        Phase::Subset => 'P',
        Phase::Names => 'N',
        Phase::Mapping => 'M',
        Phase::Flow => 'F',
        Phase::Coarray => 'C',
        Phase::Script => 'O',
    }
}

// Whether a number of nodes is missing or 1 to 16.
fn is_count(given: Option<u32>) -> bool
    ensures { result ≡ is_count given }
{
    match given {
        Some(count) => 1 <= count && count <= 16,
        None => true,
    }
}

/// What becomes of a text, for a number of nodes or none.
pub(crate) fn typed(alloc: Global, text: &str, given: Option<u32>) -> Result<Prog, Fault> {
    if text.len() > 1048576 || !is_count(given) {
        return Err(Fault::NoMemory);
    }
    let tree = tree_of(alloc, text.as_bytes())?;
    text_numbers_lie();
    elaborate(alloc, &tree, given)
}

// The rule that a refusal names, and where.
fn spelled(alloc: Global, refusal: Refusal) -> Result<String, Fail> {
    let letter = letter(refusal.phase);
    let Place { line, column } = refusal.at;
    Ok(format!(in alloc; "{letter}{} at {line}:{column}", refusal.rule)?)
}

// The rule that a text breaks and where, or nothing where it is a program, for no number of nodes.
fn judged(alloc: Global, text: &str) -> Result<String, Fail> {
    match typed(alloc, text, None) {
        Ok(program) => {
            drop(program);
            Ok(String::new(alloc))
        }
        Err(Fault::NoMemory) => Ok(format!(in alloc; "no memory")?),
        Err(Fault::Refused(refusal)) => spelled(alloc, refusal),
    }
}

/// Asserts that a text in three pieces is judged as expected.
pub(crate) fn check_one(
    rt: &impl Abort,
    alloc: Global,
    pieces: (&str, &str, &str),
    expected: &str,
) -> Result<(), Fail> {
    let text = format!(in alloc; "{}{}{}", pieces.0, pieces.1, pieces.2)?;
    let found = judged(alloc, text.as_str())?;
    assert_eq!(rt; found.as_str(), expected, "{text}");
    Ok(())
}

// Asserts that each of these texts, with what stands around it, is judged as expected.
fn check_alike(
    rt: &impl Abort,
    alloc: Global,
    around: Around,
    texts: &[&str],
    expected: &str,
) -> Result<(), Fail> {
    for text in texts {
        check_one(rt, alloc, (around.0, text, around.1), expected)?;
    }
    Ok(())
}

/// Asserts that the texts of a table, with what stands around them, are judged as it says.
pub(crate) fn check(
    rt: &impl Abort,
    alloc: Global,
    around: Around,
    table: &[Alike],
) -> Result<(), Fail> {
    for (expected, texts) in table {
        check_alike(rt, alloc, around, texts, expected)?;
    }
    Ok(())
}
