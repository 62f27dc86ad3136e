// Refusals of a source text, and which of several stands first.
ghost use Rattle.std.specs.Prelude.{◌≡◌, ◌⊎◌, Bool, true};
ghost use Rattle.xmp_base.specs.declared.refusal.Refusal.{Refusal};
ghost use Rattle.xmp_base.specs.First.{IsFirst, first_of};

use crate::Place;
use std::alloc::{AllocError, AllocFailed};

/// The phases of the compiler, in the order in which they judge a text.
#[derive(Clone, Copy, Debug, PartialEq, Eq)]
pub enum Phase {
    Lex,
    Macro,
    Syntax,
    Procedure,
    Subset,
    Names,
    Mapping,
    Flow,
    Coarray,
    Script,
}

/// A rule that a source text breaks: the rule's phase, its number within the phase, from 1, and the place.
#[derive(Clone, Copy, Debug, PartialEq, Eq)]
pub struct Refusal {
    pub phase: Phase,
    pub rule: u16,
    pub at: Place,
}

/// Memory ran out.
#[derive(Clone, Copy, Debug, PartialEq, Eq)]
pub struct NoMemory;

impl From<AllocError> for NoMemory {
    ghost use Rattle.std.specs.Prelude.{◌≡◌};

    ghost from_gives = { λ _ e. e ≡ record {} };

    fn from(_refused: AllocError) -> NoMemory {
        NoMemory
    }
}

impl<T: Drop> From<AllocFailed<T>> for NoMemory {
    ghost use Rattle.std.specs.Prelude.{◌≡◌};

    ghost from_gives = { λ _ e. e ≡ record {} };

    fn from(_refused: AllocFailed<T>) -> NoMemory {
        NoMemory
    }
}

/// Why a phase gave nothing: the text breaks a rule, or memory ran out.
#[derive(Clone, Copy, Debug, PartialEq, Eq)]
pub enum Fault {
    Refused(Refusal),
    NoMemory,
}

impl From<NoMemory> for Fault {
    ghost use Rattle.std.specs.Prelude.{◌≡◌};
    ghost use Rattle.xmp_base.specs.declared.refusal.Fault.TheVariants as fault;

    ghost from_gives = { λ _ e. e ≡ fault.NoMemory };

    fn from(_nothing: NoMemory) -> Fault {
        Fault::NoMemory
    }
}

/// Of two refusals of one phase, the one that stands first: by line, then column, then rule number.
/// A checker builds on the clause `joins`: from the first refusal of each of two sets, which are given by tests, the
/// first of both.
pub fn earlier(a: Option<Refusal>, b: Option<Refusal>) -> Option<Refusal>
    ensures first { result ≡ first_of a b }
    ensures joins { (p q : Refusal → Bool) → IsFirst (λ r. p r ≡ true) a → IsFirst (λ r. q r ≡ true) b → IsFirst (λ r. (p r ≡ true) ⊎ (q r ≡ true)) result }
{
    first_of_both(a, b)
}

fn first_of_both(a: Option<Refusal>, b: Option<Refusal>) -> Option<Refusal>
    ensures { result ≡ first_of a b }
{
    match (a, b) {
        (None, _) => b,
        (Some(_), None) => a,
        (Some(x), Some(y)) => {
            if (x.at.line, x.at.column, x.rule) <= (y.at.line, y.at.column, y.rule) {
                a
            } else {
                b
            }
        }
    }
}
