// Functions and programs.
use crate::declaration::Declaration;
use crate::directive::Mapping;
use crate::parts::{CommaList, Inside, Name, TypeWords};
use crate::statement::{BlockItem, Stmt};
use sqlite_items::Items;
use xmp_base::Place;

#[derive(Drop)]
pub enum Parameters {
    Void(Place),
    Named(CommaList<(TypeWords, Name)>),
}

#[derive(Drop)]
pub struct Function {
    pub ty: TypeWords,
    pub name: Name,
    pub parameters: Inside<Option<Parameters>>,
    pub body: Inside<Items<BlockItem<Stmt>>>,
}

#[derive(Drop)]
pub enum TopItem {
    Mapping(Mapping),
    Declaration(Declaration),
    Function(Function),
}

/// A program: its parts, the last a function, and the end of the text.
#[derive(Drop)]
pub struct Tree {
    pub parts: Items<TopItem>,
    pub finish: Place,
}
