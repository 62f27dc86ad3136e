// The verdict on the names and mappings of a program.
ghost use Rattle.std.specs.Prelude.{◌≡◌, if◌then◌else◌, Some};
ghost use Rattle.xmp_base.specs.First.{first_of};
ghost use Rattle.xmp_parts.specs.Verdict.{first_in, is_of_names, number_of, of_mappings, of_names, refusal_of, verdict_of};

use xmp_base::{Phase, Refusal, earlier};
use xmp_walk::{Broken, Rule};

// The number of a rule in its phase.
fn number_of(rule: Rule) -> u16
    ensures { result ≡ number_of rule }
{
    match rule {
        Rule::N1 => 1,
        Rule::N2 => 2,
        Rule::N3 => 3,
        Rule::N4 => 4,
        Rule::N5 => 5,
        Rule::N6 => 6,
        Rule::N7 => 7,
        Rule::N8 => 8,
        Rule::N9 => 9,
        Rule::N10 => 10,
        Rule::M1 => 1,
        Rule::M2 => 2,
        Rule::M3 => 3,
        Rule::M4 => 4,
        Rule::M5 => 5,
        Rule::M6 => 6,
        Rule::M7 => 7,
        Rule::M8 => 8,
        Rule::M9 => 9,
        Rule::M10 => 10,
    }
}

// Whether a rule is one of names.
fn is_of_names(rule: Rule) -> bool
    ensures { result ≡ is_of_names rule }
{
    match rule {
        Rule::N1 => true,
        Rule::N2 => true,
        Rule::N3 => true,
        Rule::N4 => true,
        Rule::N5 => true,
        Rule::N6 => true,
        Rule::N7 => true,
        Rule::N8 => true,
        Rule::N9 => true,
        Rule::N10 => true,
        _ => false,
    }
}

// The refusal that a broken rule is.
fn refusal_of(broken: Broken) -> Refusal
    ensures { result ≡ refusal_of broken }
{
    let phase = if is_of_names(broken.rule) {
        Phase::Names
    } else {
        Phase::Mapping
    };
    Refusal {
        phase,
        rule: number_of(broken.rule),
        at: broken.at,
    }
}

// The first refusal after one more broken rule, where that is one of the rules that are looked for.
fn first_if(test: bool, broken: Broken, first: Option<Refusal>) -> Option<Refusal>
    ensures { result ≡ (if test then first_of (Some (refusal_of broken)) first else first) }
{
    if test {
        earlier(Some(refusal_of(broken)), first)
    } else {
        first
    }
}

// The first refusal of the rules of names in a list.
fn first_of_names(list: &[Broken]) -> Option<Refusal>
    ensures { result ≡ first_in (of_names list.now) }
{
    let mut first = None;
    let mut left = list.len();
    'list: for _broken in list {
        left -= 1;
        first = first_if(is_of_names(list[left].rule), list[left], first);
    }
    first
}

// The first refusal of the rules of mappings in a list.
fn first_of_mappings(list: &[Broken]) -> Option<Refusal>
    ensures { result ≡ first_in (of_mappings list.now) }
{
    let mut first = None;
    let mut left = list.len();
    'list: for _broken in list {
        left -= 1;
        first = first_if(!is_of_names(list[left].rule), list[left], first);
    }
    first
}

/// The verdict on the broken rules of a program: the first of the rules of names, or, where none of these breaks, the
/// first of the rules of mappings.
pub(crate) fn verdict_of(list: &[Broken]) -> Option<Refusal>
    ensures { result ≡ verdict_of list.now }
{
    match first_of_names(list) {
        Some(refusal) => Some(refusal),
        None => first_of_mappings(list),
    }
}
