// The mapping directives of a program, with their names resolved where they stand (XcalableMP 1.4, section 4).
// A number in them is any value of `long`: the rules of mappings judge it afterwards.
use sqlite_items::Items;
use xmp_base::Place;

/// How a directive writes the parts of a nodes array or of a template: each in brackets of its own, or all between one
/// pair of parentheses. Nodes are counted from 0 in brackets and from 1 in parentheses.
#[derive(Clone, Copy)]
pub enum Notation {
    Brackets,
    Parens,
}

/// A `nodes` directive: its word, how it is written, the sizes of its array, none for `*`, and whether it names a part of
/// another nodes array (`=`).
#[derive(Drop)]
pub struct NodesLine {
    pub at: Place,
    pub notation: Notation,
    pub sizes: Option<Items<i64>>,
    pub part: bool,
}

/// A `template` directive: its word, how it is written, and the lower bound and the size of each dimension.
#[derive(Drop)]
pub struct TemplateLine {
    pub at: Place,
    pub notation: Notation,
    pub lowers: Items<i64>,
    pub sizes: Items<i64>,
}

/// The form of a distribution in one dimension; `cyclic` without a width has the width 1.
#[derive(Drop)]
pub enum Form {
    Whole,
    Block,
    Cyclic(i64),
    Gblock(Items<i64>),
}

/// A `distribute` directive: its word, the template by its number, and the forms.
#[derive(Drop)]
pub struct Distribution {
    pub at: Place,
    pub template: u32,
    pub forms: Items<Form>,
}

/// What stands for a dimension of the template in an align: `*`, or a dimension of the array and the constant as written.
#[derive(Clone, Copy)]
pub enum AlignPoint {
    Star,
    Dummy { dimension: usize, offset: i64 },
}

/// An `align` directive: its word, the array and the template by their numbers, whether each dimension of the array has a
/// dummy, and what stands for each dimension of the template.
#[derive(Drop)]
pub struct Align {
    pub at: Place,
    pub array: u32,
    pub template: u32,
    pub dummies: Items<bool>,
    pub points: Items<AlignPoint>,
}

/// A `shadow` directive: its word, the array by its number, and both widths of each dimension.
#[derive(Drop)]
pub struct Shadow {
    pub at: Place,
    pub array: u32,
    pub widths: Items<(i64, i64)>,
}

/// A loop directive over a template: its word, the template by its number, and whether each point has an index.
#[derive(Drop)]
pub struct LoopUse {
    pub at: Place,
    pub template: u32,
    pub indexed: Items<bool>,
}

/// The mapping directives of a program in the order of its text, its loop directives, and the word of the directive whose
/// place is least.
#[derive(Drop)]
pub struct Mappings {
    pub nodes: Items<NodesLine>,
    pub templates: Items<TemplateLine>,
    pub distributions: Items<Distribution>,
    pub aligns: Items<Align>,
    pub shadows: Items<Shadow>,
    pub loops: Items<LoopUse>,
    pub first_directive: Option<Place>,
}
