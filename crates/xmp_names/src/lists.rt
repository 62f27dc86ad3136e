// The parts of nodes arrays and templates in directives, in either notation.
ghost use Rattle.std.specs.Prelude.{◌≡◌, ◌<◌, OnSome, length, option_copied, slice_get};
ghost use Rattle.xmp_names.specs.Lists.{is_same, notation, only, only_notation, parts};

use crate::mappings::Notation;
use xmp_syntax::{Several, Single};

/// A part of several, counted from 0.
pub fn part_at<T>(list: &Several<T, T>, at: usize) -> Option<&T>
    ensures value { option_copied result ≡ slice_get (parts list.now) at }
    ensures within { OnSome result (at < length (parts list.now)) }
{
    match list {
        Several::Brackets(items) => match items.get(at) {
            Some(x) => Some(&x.item),
            None => None,
        },
        Several::Parens(list) => {
            if at == 0 {
                return Some(&list.item.first);
            }
            match list.item.more.get(at - 1) {
                Some(next) => Some(&next.item),
                None => None,
            }
        }
    }
}

/// How several parts are written.
pub fn notation<B, P>(list: &Several<B, P>) -> Notation
    ensures { result ≡ notation list.now }
{
    match list {
        Several::Brackets(_) => Notation::Brackets,
        Several::Parens(_) => Notation::Parens,
    }
}

/// A single part.
pub fn only<T>(x: &Single<T>) -> &T
    ensures { result.now ≡ only x.now }
{
    match x {
        Single::Bracket(x) => &x.item,
        Single::Paren(x) => &x.item,
    }
}

/// How a single part is written.
pub fn only_notation<T>(x: &Single<T>) -> Notation
    ensures { result ≡ only_notation x.now }
{
    match x {
        Single::Bracket(_) => Notation::Brackets,
        Single::Paren(_) => Notation::Parens,
    }
}

/// Whether two notations are the same.
pub fn is_same(a: Notation, b: Notation) -> bool
    ensures { result ≡ is_same a b }
{
    match (a, b) {
        (Notation::Brackets, Notation::Brackets) => true,
        (Notation::Parens, Notation::Parens) => true,
        _ => false,
    }
}
