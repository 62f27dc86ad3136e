// The lines of directives (XcalableMP 1.4, sections 4 to 6).
use crate::expression::Expr;
use crate::parts::{CommaList, Inside, Name, Placed, Several, Single};
use sqlite_items::Items;
use xmp_base::Place;
use xmp_lex::Mark;

/// The tokens round a directive: the start of its line, its word, and the end of its line.
#[derive(Clone, Copy, Debug, PartialEq, Eq)]
pub struct DirectiveLine {
    pub start: Place,
    pub word: Place,
    pub end: Place,
}

/// How a dimension is distributed, inside its brackets or between commas.
#[derive(Drop)]
pub enum DistForm {
    /// `*`
    Whole(Place),
    Block(Place),
    /// `cyclic`, with its width in parentheses where one is given
    Cyclic(Place, Option<Inside<Expr>>),
    /// `gblock`, with its lengths in braces in parentheses
    Gblock(Place, Inside<Inside<CommaList<Expr>>>),
}

/// A dimension of the array of an align, inside its brackets: `*` or the name of a dummy.
#[derive(Drop)]
pub enum AlignDimension {
    Star(Place),
    Dummy(Name),
}

/// A dimension of a template in an align or a loop: `*`, or a name with the sign and the operand of its offset.
#[derive(Drop)]
pub enum Point {
    Star(Place),
    Index(Name, Option<(Placed<Mark>, Expr)>),
}

/// A section of an array in a gmove, inside its brackets: `:` alone, or up to three numbers.
#[derive(Drop)]
pub enum Section {
    All(Place),
    Numbers(Expr, Option<(Place, Expr)>, Option<(Place, Expr)>),
}

/// A part of an array in a gmove.
#[derive(Drop)]
pub struct Sections {
    pub name: Name,
    pub sections: Items<Inside<Section>>,
}

/// A dimension of a set of nodes: `:` alone, or one number or two. In brackets `b:n` are the n nodes from b on,
/// in parentheses `b:e` are the nodes b to e.
#[derive(Drop)]
pub enum Piece {
    All(Place),
    Numbers(Expr, Option<(Place, Expr)>),
}

/// A set of nodes: all of a nodes array, or a piece of each of its dimensions.
#[derive(Drop)]
pub struct NodesSet {
    pub name: Name,
    pub pieces: Several<Piece, Piece>,
}

#[derive(Drop)]
pub enum Mapping {
    /// The nodes array and its sizes.
    Nodes(DirectiveLine, Name, Several<Expr, Expr>),
    /// The nodes array with `*` as its one size.
    NodesStar(DirectiveLine, Name, Single<Place>),
    /// The nodes array, its one size, `=` and the set of nodes that it names.
    NodesPart(DirectiveLine, Name, Single<Expr>, Place, NodesSet),
    /// The template, with a size in each of its brackets, or its bounds in parentheses: one number `n` for 1 to n,
    /// or two with `:` between them.
    Template(DirectiveLine, Name, Several<Expr, (Expr, Option<(Place, Expr)>)>),
    /// The template, how its dimensions are distributed, `onto` and the nodes array.
    Distribute(DirectiveLine, Name, Several<DistForm, DistForm>, Place, Name),
    /// The array, its dimensions, `with`, the template and its points.
    Align(DirectiveLine, Name, Items<Inside<AlignDimension>>, Place, Name, Several<Point, Point>),
    /// The array, with one width or both widths of each dimension.
    Shadow(DirectiveLine, Name, Items<Inside<(Expr, Option<(Place, Expr)>)>>),
}

#[derive(Drop)]
pub enum ReductionOperator {
    Mark(Placed<Mark>),
    Max(Place),
    Min(Place),
}

/// `reduction`, and in parentheses the operator, `:` and the names.
#[derive(Drop)]
pub struct Reduction {
    pub word: Place,
    pub list: Inside<(ReductionOperator, Place, CommaList<Name>)>,
}

/// The line of a loop directive: the names in parentheses, `on`, the template with its points, the reductions.
#[derive(Drop)]
pub struct LoopLine {
    pub line: DirectiveLine,
    pub names: Option<Inside<CommaList<Name>>>,
    pub on: Place,
    pub template: Name,
    pub points: Several<Point, Point>,
    pub reductions: Items<Reduction>,
}

/// The line of a task directive: `on` and the set of nodes.
#[derive(Drop)]
pub struct TaskLine {
    pub line: DirectiveLine,
    pub on: Place,
    pub set: NodesSet,
}
