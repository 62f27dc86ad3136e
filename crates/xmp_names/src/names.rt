// What the names of a program mean at a place of its text.
ghost use Rattle.std.specs.Prelude.{◌≡◌};

use sqlite_items::Items;
use xmp_base::Place;
use xmp_num::Ty;
use xmp_scopes::Scopes;

/// Where in a program a part of it stands: at file scope, in a function, or in main, which is the last function.
#[derive(Clone, Copy, PartialEq, Eq)]
pub enum Region {
    File,
    Function,
    Main,
}

/// What a name means.
#[derive(Clone, Copy)]
pub enum Meaning {
    /// a scalar by its slot, and its type
    Scalar(u32, Ty),
    /// an array by its number
    Array(u32),
    /// a nodes array by its number
    Nodes(u32),
    /// a template by its number
    Template(u32),
    /// a function by its number, and the type of its result
    Function(u32, Ty),
}

/// An array: the type of its cells, its extents, whether it is a coarray, and the place of its name.
#[derive(Drop)]
pub struct Array {
    pub ty: Ty,
    pub extents: Items<u32>,
    pub coarray: bool,
    pub at: Place,
}

/// What a call needs to know of a function: how many parameters it has, and its call depth, which is 0 up to its end.
#[derive(Clone, Copy)]
pub struct Signature {
    pub parameters: usize,
    pub depth: u32,
}

/// What is known at a place of the text: whether the program declares a coarray, where the place is, what names mean, and
/// the arrays and functions declared so far, those of functions and main included.
#[derive(Drop)]
pub struct Environment {
    pub coarray: bool,
    pub region: Region,
    pub scopes: Scopes<Meaning>,
    pub arrays: Items<Array>,
    pub functions: Items<Signature>,
}
