// The tokens of declarations and of the lines of directives.
ghost use Rattle.std.specs.Prelude.{◌≡◌, ◌∷◌, OnOk, codes};
ghost use Rattle.xmp_lex.specs.declared.token.Mark.TheVariants.{Star};
ghost use Rattle.xmp_lex.specs.declared.token.TokenKind.TheVariants.{Close, Pragma};
ghost use Rattle.xmp_syntax.specs.declared.directive.Mapping.TheVariants.{Align, Distribute, Nodes, NodesPart, NodesStar, Shadow, Template};
ghost use Rattle.xmp_syntax.specs.Spell.{◌at◌, after_colon, align_dimension, coarray, declarator, dims, dist_form, each, expr, in_braces, in_parens, list, loop_line, name, names, nodes_set, offset, optional, piece, point, range, reduction, reduction_list, reduction_operator, section, sections, sign, spell_declaration, spell_mapping, spelled, task_line, type_words, value};

use crate::rest::Rest;
use crate::spelling::{put_expr, put_name};
use crate::spelling_lists::{Spelled, put_dims, put_list, put_several, put_single};
use sqlite_items::Items;
use std::alloc::Global;
use xmp_base::{NoMemory, Place};
use xmp_lex::{Mark, Reserved, TokenKind};
use xmp_syntax::{
    AlignDimension, CommaList, Declaration, Declarator, DirectiveLine, DistForm, Expr, Inside,
    LoopLine, Mapping, Name, NodesSet, Piece, Placed, Point, Reduction, ReductionOperator, Section,
    Sections, Several, Single, TaskLine, TypeWords,
};

pub fn put_type_words(rest: &mut Rest, ty: TypeWords) -> Result<(), NoMemory>
    ensures { OnOk result (rest.new ≡ type_words ty rest.old) }
{
    match ty {
        TypeWords::Int(place) => rest.put_word(Reserved::Int, place),
        TypeWords::Long(place) => rest.put_word(Reserved::Long, place),
        TypeWords::LongInt(long, int) => {
            rest.put_word(Reserved::Int, int)?;
            rest.put_word(Reserved::Long, long)
        }
    }
}

/// Expressions.
pub struct Exprs;

impl Spelled for Exprs {
    type Made = Expr;

    ghost text = { expr };

    fn put(rest: &mut Rest, alloc: Global, x: &Expr) -> Result<(), NoMemory> {
        put_expr(rest, alloc, x)
    }
}

/// Plain names.
struct Names;

impl Spelled for Names {
    type Made = Name;

    ghost text = { name };

    fn put(rest: &mut Rest, alloc: Global, x: &Name) -> Result<(), NoMemory> {
        put_name(rest, alloc, x)
    }
}

/// Stars, the size of a nodes array that is not given.
struct Stars;

impl Spelled for Stars {
    type Made = Place;

    ghost text = { sign Star };

    fn put(rest: &mut Rest, _alloc: Global, x: &Place) -> Result<(), NoMemory> {
        rest.put_sign(Mark::Star, *x)
    }
}

pub fn put_names(rest: &mut Rest, alloc: Global, x: &CommaList<Name>) -> Result<(), NoMemory>
    ensures { OnOk result (rest.new ≡ names x.now rest.old) }
{
    put_list::<Names>(rest, alloc, x)
}

/// Names behind commas in parentheses.
pub fn put_names_inside(
    rest: &mut Rest,
    alloc: Global,
    x: &Inside<CommaList<Name>>,
) -> Result<(), NoMemory>
    ensures { OnOk result (rest.new ≡ in_parens names x.now rest.old) }
{
    rest.put_sign(Mark::CloseParen, x.close)?;
    put_names(rest, alloc, &x.item)?;
    rest.put_sign(Mark::OpenParen, x.open)
}

fn put_value(rest: &mut Rest, alloc: Global, x: &Option<(Place, Expr)>) -> Result<(), NoMemory>
    ensures { OnOk result (rest.new ≡ optional value x.now rest.old) }
{
    match x {
        Some((place, number)) => {
            put_expr(rest, alloc, number)?;
            rest.put_sign(Mark::Assign, *place)
        }
        None => Ok(()),
    }
}

fn put_after_colon(
    rest: &mut Rest,
    alloc: Global,
    x: &Option<(Place, Expr)>,
) -> Result<(), NoMemory>
    ensures { OnOk result (rest.new ≡ optional after_colon x.now rest.old) }
{
    match x {
        Some((place, number)) => {
            put_expr(rest, alloc, number)?;
            rest.put_sign(Mark::Colon, *place)
        }
        None => Ok(()),
    }
}

fn put_coarray(rest: &mut Rest, x: &Option<(Place, Inside<Place>)>) -> Result<(), NoMemory>
    ensures { OnOk result (rest.new ≡ optional coarray x.now rest.old) }
{
    match x {
        Some((colon, star)) => {
            rest.put_sign(Mark::CloseBracket, star.close)?;
            rest.put_sign(Mark::Star, star.item)?;
            rest.put_sign(Mark::OpenBracket, star.open)?;
            rest.put_sign(Mark::Colon, *colon)
        }
        None => Ok(()),
    }
}

fn put_declarator(rest: &mut Rest, alloc: Global, x: &Declarator) -> Result<(), NoMemory>
    ensures { OnOk result (rest.new ≡ declarator x.now rest.old) }
{
    match x {
        Declarator::Scalar(name, value) => {
            put_value(rest, alloc, value)?;
            put_name(rest, alloc, name)
        }
        Declarator::Array(name, extents, star) => {
            put_coarray(rest, star)?;
            put_dims::<Exprs>(rest, alloc, extents.as_slice())?;
            put_name(rest, alloc, name)
        }
    }
}

/// Declarators.
struct Declarators;

impl Spelled for Declarators {
    type Made = Declarator;

    ghost text = { declarator };

    fn put(rest: &mut Rest, alloc: Global, x: &Declarator) -> Result<(), NoMemory> {
        put_declarator(rest, alloc, x)
    }
}

pub fn put_declaration(rest: &mut Rest, alloc: Global, x: &Declaration) -> Result<(), NoMemory>
    ensures { OnOk result (rest.new ≡ spell_declaration x.now rest.old) }
{
    rest.put_sign(Mark::Semicolon, x.end)?;
    put_list::<Declarators>(rest, alloc, &x.items)?;
    put_type_words(rest, x.ty)
}

fn put_any_width(rest: &mut Rest, alloc: Global, x: &Option<Inside<Expr>>) -> Result<(), NoMemory>
    ensures { OnOk result (rest.new ≡ optional (in_parens expr) x.now rest.old) }
{
    match x {
        Some(width) => {
            rest.put_sign(Mark::CloseParen, width.close)?;
            put_expr(rest, alloc, &width.item)?;
            rest.put_sign(Mark::OpenParen, width.open)
        }
        None => Ok(()),
    }
}

fn put_lengths(
    rest: &mut Rest,
    alloc: Global,
    x: &Inside<Inside<CommaList<Expr>>>,
) -> Result<(), NoMemory>
    ensures { OnOk result (rest.new ≡ in_parens (in_braces (list expr)) x.now rest.old) }
{
    rest.put_sign(Mark::CloseParen, x.close)?;
    rest.put_sign(Mark::CloseBrace, x.item.close)?;
    put_list::<Exprs>(rest, alloc, &x.item.item)?;
    rest.put_sign(Mark::OpenBrace, x.item.open)?;
    rest.put_sign(Mark::OpenParen, x.open)
}

/// Forms of distribution.
struct Forms;

impl Spelled for Forms {
    type Made = DistForm;

    ghost text = { dist_form };

    fn put(rest: &mut Rest, alloc: Global, x: &DistForm) -> Result<(), NoMemory> {
        match x {
            DistForm::Whole(place) => rest.put_sign(Mark::Star, *place),
            DistForm::Block(place) => rest.put_spelled(alloc, b"block", *place),
            DistForm::Cyclic(place, width) => {
                put_any_width(rest, alloc, width)?;
                rest.put_spelled(alloc, b"cyclic", *place)
            }
            DistForm::Gblock(place, lengths) => {
                put_lengths(rest, alloc, lengths)?;
                rest.put_spelled(alloc, b"gblock", *place)
            }
        }
    }
}

/// Dimensions of the array of an align.
struct AlignDimensions;

impl Spelled for AlignDimensions {
    type Made = AlignDimension;

    ghost text = { align_dimension };

    fn put(rest: &mut Rest, alloc: Global, x: &AlignDimension) -> Result<(), NoMemory> {
        match x {
            AlignDimension::Star(place) => rest.put_sign(Mark::Star, *place),
            AlignDimension::Dummy(name) => put_name(rest, alloc, name),
        }
    }
}

fn put_offset(
    rest: &mut Rest,
    alloc: Global,
    x: &Option<(Placed<Mark>, Expr)>,
) -> Result<(), NoMemory>
    ensures { OnOk result (rest.new ≡ optional offset x.now rest.old) }
{
    match x {
        Some((operator, number)) => {
            put_expr(rest, alloc, number)?;
            rest.put_sign(operator.what, operator.at)
        }
        None => Ok(()),
    }
}

/// Dimensions of a template.
struct Points;

impl Spelled for Points {
    type Made = Point;

    ghost text = { point };

    fn put(rest: &mut Rest, alloc: Global, x: &Point) -> Result<(), NoMemory> {
        match x {
            Point::Star(place) => rest.put_sign(Mark::Star, *place),
            Point::Index(name, offset) => {
                put_offset(rest, alloc, offset)?;
                put_name(rest, alloc, name)
            }
        }
    }
}

/// Bounds of a template, and widths of a shadow.
struct Ranges;

impl Spelled for Ranges {
    type Made = (Expr, Option<(Place, Expr)>);

    ghost text = { range };

    fn put(
        rest: &mut Rest,
        alloc: Global,
        x: &(Expr, Option<(Place, Expr)>),
    ) -> Result<(), NoMemory> {
        put_after_colon(rest, alloc, &x.1)?;
        put_expr(rest, alloc, &x.0)
    }
}

/// Sections of an array.
struct ArraySections;

impl Spelled for ArraySections {
    type Made = Section;

    ghost text = { section };

    fn put(rest: &mut Rest, alloc: Global, x: &Section) -> Result<(), NoMemory> {
        match x {
            Section::All(place) => rest.put_sign(Mark::Colon, *place),
            Section::Numbers(first, second, third) => {
                put_after_colon(rest, alloc, third)?;
                put_after_colon(rest, alloc, second)?;
                put_expr(rest, alloc, first)
            }
        }
    }
}

/// Pieces of a set of nodes.
struct Pieces;

impl Spelled for Pieces {
    type Made = Piece;

    ghost text = { piece };

    fn put(rest: &mut Rest, alloc: Global, x: &Piece) -> Result<(), NoMemory> {
        match x {
            Piece::All(place) => rest.put_sign(Mark::Colon, *place),
            Piece::Numbers(first, second) => {
                put_after_colon(rest, alloc, second)?;
                put_expr(rest, alloc, first)
            }
        }
    }
}

/// A part of an array.
pub fn put_sections(rest: &mut Rest, alloc: Global, x: &Sections) -> Result<(), NoMemory>
    ensures { OnOk result (rest.new ≡ sections x.now rest.old) }
{
    put_dims::<ArraySections>(rest, alloc, x.sections.as_slice())?;
    put_name(rest, alloc, &x.name)
}

/// A set of nodes.
pub fn put_set(rest: &mut Rest, alloc: Global, x: &NodesSet) -> Result<(), NoMemory>
    ensures { OnOk result (rest.new ≡ nodes_set x.now rest.old) }
{
    put_several::<Pieces, Pieces>(rest, alloc, &x.pieces)?;
    put_name(rest, alloc, &x.name)
}

/// The names of a distribute or an align behind its list: a word, and a name.
fn put_target(
    rest: &mut Rest,
    alloc: Global,
    bytes: &[u8],
    place: Place,
    target: &Name,
) -> Result<(), NoMemory>
    ensures { OnOk result (rest.new ≡ spelled bytes.now place (name target.now rest.old)) }
{
    put_name(rest, alloc, target)?;
    rest.put_spelled(alloc, bytes, place)
}

/// The first two tokens of a directive's line.
pub fn put_start(
    rest: &mut Rest,
    alloc: Global,
    bytes: &[u8],
    line: DirectiveLine,
) -> Result<(), NoMemory>
    ensures { OnOk result (rest.new ≡ (Pragma at line.start) ∷ spelled bytes.now line.word rest.old) }
{
    rest.put_spelled(alloc, bytes, line.word)?;
    rest.put(TokenKind::Pragma, line.start)
}

/// The last token of a directive's line.
pub fn put_end(rest: &mut Rest, line: DirectiveLine) -> Result<(), NoMemory>
    ensures { OnOk result (rest.new ≡ (Close at line.end) ∷ rest.old) }
{
    rest.put(TokenKind::Close, line.end)
}

/// The first three tokens of a mapping's line.
fn put_head(
    rest: &mut Rest,
    alloc: Global,
    bytes: &[u8],
    line: DirectiveLine,
    named: &Name,
) -> Result<(), NoMemory>
    ensures { OnOk result (rest.new ≡ (Pragma at line.start) ∷ spelled bytes.now line.word (name named.now rest.old)) }
{
    put_name(rest, alloc, named)?;
    put_start(rest, alloc, bytes, line)
}

fn put_nodes(
    rest: &mut Rest,
    alloc: Global,
    line: DirectiveLine,
    named: &Name,
    sizes: &Several<Expr, Expr>,
) -> Result<(), NoMemory>
    ensures { OnOk result (rest.new ≡ spell_mapping (Nodes line named.now sizes.now) rest.old) }
{
    put_end(rest, line)?;
    put_several::<Exprs, Exprs>(rest, alloc, sizes)?;
    put_head(rest, alloc, b"nodes", line, named)
}

fn put_nodes_star(
    rest: &mut Rest,
    alloc: Global,
    line: DirectiveLine,
    named: &Name,
    star: &Single<Place>,
) -> Result<(), NoMemory>
    ensures { OnOk result (rest.new ≡ spell_mapping (NodesStar line named.now star.now) rest.old) }
{
    put_end(rest, line)?;
    put_single::<Stars>(rest, alloc, star)?;
    put_head(rest, alloc, b"nodes", line, named)
}

fn put_nodes_part(
    rest: &mut Rest,
    alloc: Global,
    line: DirectiveLine,
    named: &Name,
    size: &Single<Expr>,
    assign: Place,
    set: &NodesSet,
) -> Result<(), NoMemory>
    ensures { OnOk result (rest.new ≡ spell_mapping (NodesPart line named.now size.now assign set.now) rest.old) }
{
    put_end(rest, line)?;
    put_set(rest, alloc, set)?;
    rest.put_sign(Mark::Assign, assign)?;
    put_single::<Exprs>(rest, alloc, size)?;
    put_head(rest, alloc, b"nodes", line, named)
}

fn put_template(
    rest: &mut Rest,
    alloc: Global,
    line: DirectiveLine,
    named: &Name,
    bounds: &Several<Expr, (Expr, Option<(Place, Expr)>)>,
) -> Result<(), NoMemory>
    ensures { OnOk result (rest.new ≡ spell_mapping (Template line named.now bounds.now) rest.old) }
{
    put_end(rest, line)?;
    put_several::<Exprs, Ranges>(rest, alloc, bounds)?;
    put_head(rest, alloc, b"template", line, named)
}

fn put_distribute(
    rest: &mut Rest,
    alloc: Global,
    line: DirectiveLine,
    named: &Name,
    forms: &Several<DistForm, DistForm>,
    onto: Place,
    nodes: &Name,
) -> Result<(), NoMemory>
    ensures { OnOk result (rest.new ≡ spell_mapping (Distribute line named.now forms.now onto nodes.now) rest.old) }
{
    put_end(rest, line)?;
    put_target(rest, alloc, b"onto", onto, nodes)?;
    put_several::<Forms, Forms>(rest, alloc, forms)?;
    put_head(rest, alloc, b"distribute", line, named)
}

/// The dimensions of the array of an align, and the word and the template behind them.
fn put_align_target(
    rest: &mut Rest,
    alloc: Global,
    dimensions: &[Inside<AlignDimension>],
    with: Place,
    template: &Name,
) -> Result<(), NoMemory>
    ensures { OnOk result (rest.new ≡ dims align_dimension dimensions.now (spelled (codes "with") with (name template.now rest.old))) }
{
    put_target(rest, alloc, b"with", with, template)?;
    put_dims::<AlignDimensions>(rest, alloc, dimensions)
}

fn put_align(
    rest: &mut Rest,
    alloc: Global,
    line: DirectiveLine,
    named: &Name,
    dimensions: &Items<Inside<AlignDimension>>,
    with: Place,
    template: &Name,
    points: &Several<Point, Point>,
) -> Result<(), NoMemory>
    ensures { OnOk result (rest.new ≡ spell_mapping (Align line named.now dimensions.now with template.now points.now) rest.old) }
{
    put_end(rest, line)?;
    put_several::<Points, Points>(rest, alloc, points)?;
    put_align_target(rest, alloc, dimensions.as_slice(), with, template)?;
    put_head(rest, alloc, b"align", line, named)
}

fn put_shadow(
    rest: &mut Rest,
    alloc: Global,
    line: DirectiveLine,
    named: &Name,
    widths: &Items<Inside<(Expr, Option<(Place, Expr)>)>>,
) -> Result<(), NoMemory>
    ensures { OnOk result (rest.new ≡ spell_mapping (Shadow line named.now widths.now) rest.old) }
{
    put_end(rest, line)?;
    put_dims::<Ranges>(rest, alloc, widths.as_slice())?;
    put_head(rest, alloc, b"shadow", line, named)
}

pub fn put_mapping(rest: &mut Rest, alloc: Global, x: &Mapping) -> Result<(), NoMemory>
    ensures { OnOk result (rest.new ≡ spell_mapping x.now rest.old) }
{
    match x {
        Mapping::Nodes(line, name, sizes) => put_nodes(rest, alloc, *line, name, sizes),
        Mapping::NodesStar(line, name, star) => put_nodes_star(rest, alloc, *line, name, star),
        Mapping::NodesPart(line, name, size, assign, set) => {
            put_nodes_part(rest, alloc, *line, name, size, *assign, set)
        }
        Mapping::Template(line, name, bounds) => put_template(rest, alloc, *line, name, bounds),
        Mapping::Distribute(line, name, forms, onto, nodes) => {
            put_distribute(rest, alloc, *line, name, forms, *onto, nodes)
        }
        Mapping::Align(line, name, dimensions, with, template, points) => {
            put_align(
                rest, alloc, *line, name, dimensions, *with, template, points,
            )
        }
        Mapping::Shadow(line, name, widths) => put_shadow(rest, alloc, *line, name, widths),
    }
}

fn put_reduction_operator(
    rest: &mut Rest,
    alloc: Global,
    x: &ReductionOperator,
) -> Result<(), NoMemory>
    ensures { OnOk result (rest.new ≡ reduction_operator x.now rest.old) }
{
    match x {
        ReductionOperator::Mark(mark) => rest.put_sign(mark.what, mark.at),
        ReductionOperator::Max(place) => rest.put_spelled(alloc, b"max", *place),
        ReductionOperator::Min(place) => rest.put_spelled(alloc, b"min", *place),
    }
}

fn put_reduction(rest: &mut Rest, alloc: Global, x: &Reduction) -> Result<(), NoMemory>
    ensures { OnOk result (rest.new ≡ reduction x.now rest.old) }
{
    rest.put_sign(Mark::CloseParen, x.list.close)?;
    put_names(rest, alloc, &x.list.item.2)?;
    rest.put_sign(Mark::Colon, x.list.item.1)?;
    put_reduction_operator(rest, alloc, &x.list.item.0)?;
    rest.put_sign(Mark::OpenParen, x.list.open)?;
    rest.put_spelled(alloc, b"reduction", x.word)
}

fn put_reductions(rest: &mut Rest, alloc: Global, xs: &[Reduction]) -> Result<(), NoMemory>
    ensures { OnOk result (rest.new ≡ each reduction xs.now rest.old) }
{
    'items: for i in (0..xs.len()).rev() {
        put_reduction(rest, alloc, &xs[i])?;
    }
    Ok(())
}

fn put_loop_names(
    rest: &mut Rest,
    alloc: Global,
    x: &Option<Inside<CommaList<Name>>>,
) -> Result<(), NoMemory>
    ensures { OnOk result (rest.new ≡ optional (in_parens names) x.now rest.old) }
{
    match x {
        Some(x) => put_names_inside(rest, alloc, x),
        None => Ok(()),
    }
}

pub fn put_loop_line(rest: &mut Rest, alloc: Global, x: &LoopLine) -> Result<(), NoMemory>
    ensures { OnOk result (rest.new ≡ loop_line x.now rest.old) }
{
    put_end(rest, x.line)?;
    put_reductions(rest, alloc, x.reductions.as_slice())?;
    put_several::<Points, Points>(rest, alloc, &x.points)?;
    put_target(rest, alloc, b"on", x.on, &x.template)?;
    put_loop_names(rest, alloc, &x.names)?;
    put_start(rest, alloc, b"loop", x.line)
}

pub fn put_task_line(rest: &mut Rest, alloc: Global, x: &TaskLine) -> Result<(), NoMemory>
    ensures { OnOk result (rest.new ≡ task_line x.now rest.old) }
{
    put_end(rest, x.line)?;
    put_set(rest, alloc, &x.set)?;
    rest.put_spelled(alloc, b"on", x.on)?;
    put_start(rest, alloc, b"task", x.line)
}
