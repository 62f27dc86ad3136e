// The lines of loop directives, and the nests of loops under them.
ghost use Rattle.std.specs.Prelude.{◌≡◌, [], IfOk, is_some, map};
ghost use Rattle.std.specs.Option.{unwrap_or};
ghost use Rattle.xmp_prog.specs.declared.statements.Stmt.{out-Stmt};
ghost use Rattle.xmp_prog.specs.declared.statements.Stmt.TheVariants as stmt;
ghost use Rattle.xmp_names.specs.declared.rules.Rule.TheVariants.{M7};
ghost use Rattle.xmp_names.specs.Walk.{Does, and_then, each, if_there, judge};
ghost use Rattle.xmp_names.specs.Lists.{listed, parts};
ghost use Rattle.xmp_directives.specs.Directives.{counted_in, head_of, is_indexed, judged_loop, loop_line, loop_right, made_loop, made_of_point, made_points, mark_operation, name_list, names_or, nest_of, operation_of, point_of, reduction_name, reductions_of, slots_of_points, use_template};

use crate::directives::{index_name, scalar_name};
use crate::indices::{loop_right, slots_of_points};
use crate::points::{lowers_of, match_template, offset_of};
use sqlite_items::{Boxed, Items};
use std::alloc::{AllocError, Global};
use std::mem::drop;
use xmp_base::Place;
use xmp_lex::Mark;
use xmp_names::{LoopUse, Rule, World, held, lower_at, notation, part_at};
use xmp_num::RedOp;
use xmp_prog as prog;
use xmp_prog::{LoopHead, Stmt};
use xmp_syntax::{CommaList, Inside, LoopLine, Name, Point, Reduction, ReductionOperator, Several};

/// What the line of a loop directive says: the template by its number, with its lower bounds, its points, each with the slot
/// of the index and the constant as written or nothing for `*`, the slots of its names, and its reductions.
#[derive(Drop)]
pub struct LoopParts {
    pub template: Option<u32>,
    pub lowers: Items<i64>,
    pub points: Items<Option<(u32, i64)>>,
    pub names: Items<u32>,
    pub reductions: Items<prog::Reduction>,
}

fn point_of(world: &mut World, alloc: Global, x: &Point) -> Result<Option<(u32, i64)>, AllocError>
    ensures { Does (point_of x.now world.old) result world.new }
{
    match x {
        Point::Star(_) => Ok(None),
        Point::Index(name, offset) => {
            let slot = index_name(world, name)?;
            let c = offset_of(world, alloc, offset)?;
            Ok(Some((slot, c)))
        }
    }
}

fn points_of(
    world: &mut World,
    alloc: Global,
    list: &Several<Point, Point>,
) -> Result<Items<Option<(u32, i64)>>, AllocError>
    ensures { Does (each point_of (parts list.now) world.old) result world.new }
{
    let mut done = Items::new(alloc);
    'list: while let Some(x) = part_at(list, done.len()) {
        let point = point_of(world, alloc, x)?;
        done.push(point)?;
    }
    Ok(done)
}

fn name_list(
    world: &mut World,
    alloc: Global,
    list: &Inside<CommaList<Name>>,
) -> Result<Items<u32>, AllocError>
    ensures { Does (name_list list.now world.old) result world.new }
{
    let mut done = Items::new(alloc);
    let first = index_name(world, &list.item.first)?;
    done.push(first)?;
    'more: for next in list.item.more.as_slice() {
        let slot = index_name(world, &next.item)?;
        done.push(slot)?;
    }
    Ok(done)
}

fn names_if_there(
    world: &mut World,
    alloc: Global,
    list: &Option<Inside<CommaList<Name>>>,
) -> Result<Option<Items<u32>>, AllocError>
    ensures { Does (if_there name_list list.now world.old) result world.new }
{
    match list {
        Some(list) => {
            let names = name_list(world, alloc, list)?;
            Ok(Some(names))
        }
        None => Ok(None),
    }
}

fn reduction_name(world: &mut World, op: RedOp, name: &Name) -> Result<prog::Reduction, AllocError>
    ensures { Does (reduction_name op name.now world.old) result world.new }
{
    let variable = scalar_name(world, name)?;
    Ok(prog::Reduction { op, variable })
}

fn reduction_names(
    world: &mut World,
    alloc: Global,
    op: RedOp,
    names: &CommaList<Name>,
) -> Result<Items<prog::Reduction>, AllocError>
    ensures { Does (each (reduction_name op) (listed names.now) world.old) result world.new }
{
    let mut done = Items::new(alloc);
    let first = reduction_name(world, op, &names.first)?;
    done.push(first)?;
    'more: for next in names.more.as_slice() {
        let reduction = reduction_name(world, op, &next.item)?;
        done.push(reduction)?;
    }
    Ok(done)
}

fn reductions_of(
    world: &mut World,
    alloc: Global,
    list: &[Reduction],
) -> Result<Items<prog::Reduction>, AllocError>
    ensures { Does (reductions_of [] list.now world.old) result world.new }
{
    let mut done = Items::new(alloc);
    'list: for reduction in list {
        let (operator, _, names) = &reduction.list.item;
        let more = reduction_names(world, alloc, operation_of(operator), names)?;
        done.append(more)?;
    }
    Ok(done)
}

/// The line of a loop directive.
pub fn loop_line(world: &mut World, alloc: Global, line: &LoopLine) -> Result<LoopParts, AllocError>
    ensures { Does (loop_line line.now world.old) result world.new }
{
    world.directive_at(line.line.word)?;
    let names = names_if_there(world, alloc, &line.names)?;
    let template = world.template_of(&line.template)?;
    let points = points_of(world, alloc, &line.points)?;
    let written = notation(&line.points);
    match_template(world, template, written, points.len(), line.template.at)?;
    let lowers = lowers_of(world, alloc, template)?;
    let reductions = reductions_of(world, alloc, line.reductions.as_slice())?;
    let names = names_or(alloc, names, points.as_slice())?;
    Ok(LoopParts {
        template,
        lowers,
        points,
        names,
        reductions,
    })
}

fn use_template(
    world: &mut World,
    template: Option<u32>,
    at: Place,
    indexed: Items<bool>,
) -> Result<(), AllocError>
    ensures { Does (use_template template at indexed world.old) result world.new }
{
    match template {
        Some(template) => world.mappings.loops.push(LoopUse {
            at,
            template,
            indexed,
        }),
        None => Ok(()),
    }
}

// What a loop directive breaks over loops with these heads, and that it stands over its template.
fn keep_loop(
    world: &mut World,
    alloc: Global,
    word: Place,
    parts: &LoopParts,
    heads: &[LoopHead],
) -> Result<(), AllocError>
    ensures { Does (and_then (judge (loop_right parts.now.names parts.now.points heads.now) M7 word world.old)
        (λ _. use_template parts.now.template word (map is_indexed parts.now.points))) result world.new }
{
    let points = parts.points.as_slice();
    let right = loop_right(alloc, parts.names.as_slice(), points, heads)?;
    world.judge(right, Rule::M7, word)?;
    let indexed = indexed(alloc, points)?;
    use_template(world, parts.template, word, indexed)
}

/// A loop directive over a nest.
pub fn judged_loop(
    world: &mut World,
    alloc: Global,
    word: Place,
    parts: LoopParts,
    nest: (Items<LoopHead>, Boxed<Stmt>),
) -> Result<Stmt, AllocError>
    ensures { Does (judged_loop word parts nest world.old) result world.new }
{
    keep_loop(world, alloc, word, &parts, nest.0.as_slice())?;
    made_loop(alloc, word, parts, nest)
}

fn mark_operation(mark: Mark) -> RedOp
    ensures { result ≡ mark_operation mark }
{
    match mark {
        Mark::Star => RedOp::Mul,
        Mark::And => RedOp::And,
        Mark::Or => RedOp::Or,
        Mark::Xor => RedOp::Xor,
        _ => RedOp::Add,
    }
}

fn operation_of(operator: &ReductionOperator) -> RedOp
    ensures { result ≡ operation_of operator.now }
{
    match operator {
        ReductionOperator::Mark(mark) => mark_operation(mark.what),
        ReductionOperator::Max(_) => RedOp::Max,
        ReductionOperator::Min(_) => RedOp::Min,
    }
}

fn names_or(
    alloc: Global,
    names: Option<Items<u32>>,
    points: &[Option<(u32, i64)>],
) -> Result<Items<u32>, AllocError>
    ensures { IfOk result (λ slots. slots ≡ names_or names (slots_of_points points.now)) }
{
    match names {
        Some(names) => Ok(names),
        None => slots_of_points(alloc, points),
    }
}

// Whether each point has an index.
fn indexed(alloc: Global, points: &[Option<(u32, i64)>]) -> Result<Items<bool>, AllocError>
    ensures { IfOk result (λ l. l ≡ map is_indexed points.now) }
{
    let mut done = Items::new(alloc);
    'points: for point in points {
        done.push(point.is_some())?;
    }
    Ok(done)
}

fn made_points(
    alloc: Global,
    lowers: &[i64],
    points: &[Option<(u32, i64)>],
) -> Result<Items<prog::Point>, AllocError>
    ensures { IfOk result (λ l. l ≡ made_points lowers.now 0 points.now) }
{
    let mut done = Items::new(alloc);
    'points: for (k, point) in points.iter().enumerate() {
        done.push(made_of_point(lower_at(lowers, k), *point))?;
    }
    Ok(done)
}

fn made_of_point(lower: i64, point: Option<(u32, i64)>) -> prog::Point
    ensures { result ≡ made_of_point lower point }
{
    match point {
        Some((slot, c)) => prog::Point::Index {
            slot,
            offset: held(lower, c),
        },
        None => prog::Point::Any,
    }
}

// ---- the nest

fn is_counted_loop(s: &Stmt) -> bool
    ensures { result ≡ is_some (counted_in (out-Stmt s.now)) }
{
    match s {
        Stmt::Counted(_, _) => true,
        _ => false,
    }
}

// Whether a statement is a counted loop, in braces or not.
fn is_nested(s: &Stmt) -> bool
    ensures { result ≡ is_some (head_of s.now) }
{
    match s {
        Stmt::Block(list) => match list.as_slice() {
            [inner] => is_counted_loop(inner),
            _ => false,
        },
        _ => is_counted_loop(s),
    }
}

fn counted_loop(s: Stmt) -> Option<(LoopHead, Boxed<Stmt>)>
    ensures { result ≡ counted_in (out-Stmt s) }
{
    match s {
        Stmt::Counted(head, body) => Some((head, body)),
        other => {
            drop(other);
            None
        }
    }
}

// A counted loop taken apart.
fn head_of(s: Stmt) -> Option<(LoopHead, Boxed<Stmt>)>
    ensures { result ≡ head_of s }
{
    match s {
        Stmt::Block(list) => head_in_block(list),
        other => counted_loop(other),
    }
}

fn head_in_block(mut list: Items<Stmt>) -> Option<(LoopHead, Boxed<Stmt>)>
    ensures { result ≡ head_of (stmt.Block list) }
{
    match list.pop() {
        Some(last) => {
            if list.is_empty() {
                counted_loop(last)
            } else {
                drop(last);
                None
            }
        }
        None => None,
    }
}

/// So many loops of a nest, the outermost first, and what is left.
pub fn nest_of(
    alloc: Global,
    count: usize,
    s: Boxed<Stmt>,
) -> Result<(Items<LoopHead>, Boxed<Stmt>), AllocError>
    ensures { IfOk result (λ nest. nest ≡ nest_of count s) }
{
    let mut heads = Items::new(alloc);
    let mut left = s;
    'heads: for _head in 0..count {
        if !is_nested(left.get()) {
            return Ok((heads, left));
        }
        match head_of(left.into_inner()) {
            Some((head, body)) => {
                heads.push(head)?;
                left = body;
            }
            None => unreachable!(),
        }
    }
    Ok((heads, left))
}

fn made_loop(
    alloc: Global,
    word: Place,
    parts: LoopParts,
    nest: (Items<LoopHead>, Boxed<Stmt>),
) -> Result<Stmt, AllocError>
    ensures { IfOk result (λ s. s ≡ made_loop parts nest word) }
{
    let points = made_points(alloc, parts.lowers.as_slice(), parts.points.as_slice())?;
    let LoopParts {
        template,
        reductions,
        ..
    } = parts;
    let template = match template {
        Some(template) => template,
        None => 0,
    };
    let (nest, body) = nest;
    Ok(Stmt::Loop(
        prog::LoopDirective {
            template,
            points,
            nest,
            reductions,
            at: word,
        },
        body,
    ))
}
