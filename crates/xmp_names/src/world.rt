// What the walk over a program has made and noted so far.
use crate::mappings::Mappings;
use crate::names::Environment;
use crate::rules::Broken;
use sqlite_items::Items;
use xmp_num::Ty;
use xmp_prog::{Function, Start};

/// What the walk has made and noted up to a place of the text.
#[derive(Drop)]
pub struct World {
    /// the number of nodes that is asked for, where it is
    pub given: Option<u32>,
    pub names: Environment,
    /// the type of each scalar and parameter by slot
    pub scalars: Items<Ty>,
    pub mappings: Mappings,
    /// the greatest call depth of the functions that the function being read calls
    pub deepest: u32,
    pub functions: Items<Function>,
    pub start: Items<Start>,
    pub broken: Items<Broken>,
}
