// The tokens of lists: behind commas, in brackets, or all between one pair of parentheses.
ghost use Rattle.std.specs.Prelude.{◌≡◌, List, OnOk};
ghost use Rattle.xmp_lex.specs.declared.token.Token.{Token};
ghost use Rattle.xmp_syntax.specs.Spell.{dims, each, list, next, several, single};

use crate::rest::Rest;
use std::alloc::Global;
use xmp_base::NoMemory;
use xmp_lex::Mark;
use xmp_syntax::{CommaList, Inside, Next, Several, Single};

/// A kind of part that stands in lists and in brackets.
pub trait Spelled {
    /// One of them.
    type Made;

    /// Its tokens, before those of the rest.
    ghost text: { Self.Made → List Token → List Token };

    /// Puts its tokens before the rest.
    fn put(rest: &mut Rest, alloc: Global, x: &Self::Made) -> Result<(), NoMemory>
        ensures { OnOk result (rest.new ≡ text x.now rest.old) };
}

/// Parts behind commas.
pub fn put_next<S: Spelled>(
    rest: &mut Rest,
    alloc: Global,
    xs: &[Next<S::Made>],
) -> Result<(), NoMemory>
    ensures { OnOk result (rest.new ≡ each (next S.text) xs.now rest.old) }
{
    'items: for i in (0..xs.len()).rev() {
        let x = &xs[i];
        S::put(rest, alloc, &x.item)?;
        rest.put_sign(Mark::Comma, x.comma)?;
    }
    Ok(())
}

/// A part, and others behind commas.
pub fn put_list<S: Spelled>(
    rest: &mut Rest,
    alloc: Global,
    x: &CommaList<S::Made>,
) -> Result<(), NoMemory>
    ensures { OnOk result (rest.new ≡ list S.text x.now rest.old) }
{
    put_next::<S>(rest, alloc, x.more.as_slice())?;
    S::put(rest, alloc, &x.first)
}

/// Parts in brackets.
pub fn put_dims<S: Spelled>(
    rest: &mut Rest,
    alloc: Global,
    xs: &[Inside<S::Made>],
) -> Result<(), NoMemory>
    ensures { OnOk result (rest.new ≡ dims S.text xs.now rest.old) }
{
    'items: for i in (0..xs.len()).rev() {
        let x = &xs[i];
        rest.put_sign(Mark::CloseBracket, x.close)?;
        S::put(rest, alloc, &x.item)?;
        rest.put_sign(Mark::OpenBracket, x.open)?;
    }
    Ok(())
}

/// Parts in brackets, or between parentheses.
pub fn put_several<S: Spelled, T: Spelled>(
    rest: &mut Rest,
    alloc: Global,
    x: &Several<S::Made, T::Made>,
) -> Result<(), NoMemory>
    ensures { OnOk result (rest.new ≡ several S.text T.text x.now rest.old) }
{
    match x {
        Several::Brackets(xs) => put_dims::<S>(rest, alloc, xs.as_slice()),
        Several::Parens(x) => {
            rest.put_sign(Mark::CloseParen, x.close)?;
            put_list::<T>(rest, alloc, &x.item)?;
            rest.put_sign(Mark::OpenParen, x.open)
        }
    }
}

/// One part, in brackets or in parentheses.
pub fn put_single<S: Spelled>(
    rest: &mut Rest,
    alloc: Global,
    x: &Single<S::Made>,
) -> Result<(), NoMemory>
    ensures { OnOk result (rest.new ≡ single S.text x.now rest.old) }
{
    match x {
        Single::Bracket(x) => {
            rest.put_sign(Mark::CloseBracket, x.close)?;
            S::put(rest, alloc, &x.item)?;
            rest.put_sign(Mark::OpenBracket, x.open)
        }
        Single::Paren(x) => {
            rest.put_sign(Mark::CloseParen, x.close)?;
            S::put(rest, alloc, &x.item)?;
            rest.put_sign(Mark::OpenParen, x.open)
        }
    }
}
