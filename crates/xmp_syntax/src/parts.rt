// The parts of which all of the tree is made. Each keeps the place of each of its tokens.
use sqlite_items::Items;
use xmp_base::{Bytes, Place};
use xmp_lex::Mark;

/// An identifier.
#[derive(Drop)]
pub struct Name {
    pub text: Bytes,
    pub at: Place,
}

/// The string literal of `printf` and `scanf`, with the bytes that it means.
#[derive(Drop)]
pub struct Format {
    pub text: Bytes,
    pub at: Place,
}

/// A token with one of several kinds.
#[derive(Clone, Copy, Debug, PartialEq, Eq)]
pub struct Placed<T> {
    pub what: T,
    pub at: Place,
}

/// `first { "," item }`
#[derive(Drop)]
pub struct CommaList<T> {
    pub first: T,
    pub more: Items<Next<T>>,
}

/// An item behind a comma.
#[derive(Drop)]
pub struct Next<T> {
    pub comma: Place,
    pub item: T,
}

/// An item between parentheses, brackets or braces.
#[derive(Drop)]
pub struct Inside<T> {
    pub open: Place,
    pub item: T,
    pub close: Place,
}

/// Several parts, either each in brackets of its own or all between one pair of parentheses with commas between them.
/// `Brackets` of none are no tokens: a set of nodes without pieces. Parentheses have at least one part.
#[derive(Drop)]
pub enum Several<B, P> {
    Brackets(Items<Inside<B>>),
    Parens(Inside<CommaList<P>>),
}

/// One part, in brackets or in parentheses.
#[derive(Drop)]
pub enum Single<T> {
    Bracket(Inside<T>),
    Paren(Inside<T>),
}

/// `":" "[" expr "]"`
#[derive(Drop)]
pub struct Image<E> {
    pub colon: Place,
    pub number: Inside<E>,
}

/// A variable or an element, on an image where one is named.
#[derive(Drop)]
pub struct Reference<E> {
    pub name: Name,
    pub subscripts: Items<Inside<E>>,
    pub image: Option<Image<E>>,
}

/// A call of a function.
#[derive(Drop)]
pub struct Call<E> {
    pub name: Name,
    pub arguments: Inside<Option<CommaList<E>>>,
}

/// A binary operator with its right operand.
#[derive(Drop)]
pub struct Link<E> {
    pub operator: Placed<Mark>,
    pub right: E,
}

/// `int`, `long` or `long int`, with the place of each word.
#[derive(Clone, Copy, Debug, PartialEq, Eq)]
pub enum TypeWords {
    Int(Place),
    Long(Place),
    LongInt(Place, Place),
}
