// At which offset a loop directive accesses an element.
ghost use Rattle.std.specs.Prelude.{◌≡◌, ◌+ℤ◌, ◌-ℤ◌, neg_ℤ, IfSome, Some};
ghost use Rattle.std.specs.Option.{option_map, option_copied};
ghost use Rattle.xmp_map.specs.Align.{under};
ghost use Rattle.xmp_prog.specs.declared.expressions.Expr.{out-Expr};
ghost use Rattle.xmp_loops.specs.Offsets.{IsSmall, Offset, constant_of, is_index, is_own, is_within, is_distributed, offset_at, offsets_along, offsets_of, point_for, shift_by, shift_of};
ghost use Rattle.xmp_loops.specs.Views.{join_reach, reach_along, reach_of, reach_one};

use sqlite_items::at;
use xmp_dist::Dist;
use xmp_map::{AlignedDim, ArrayMap, SpreadDim, Template};
use xmp_num::BinOp;
use xmp_prog::{Expr, LoopDirective, Point};

/// Of the offsets along the distributed dimensions of an array: whether each is 0, and whether each lies within its
/// shadow.
#[derive(Clone, Copy)]
pub struct Reach {
    pub own: bool,
    pub within: bool,
}

fn constant_of(e: &Expr) -> Option<i64>
    ensures same { result ≡ constant_of e.now }
    ensures small { IfSome result IsSmall }
{
    match e {
        Expr::Const(v, _) => {
            if -4_194_304 <= *v && *v <= 4_194_304 {
                Some(*v)
            } else {
                None
            }
        }
        _ => None,
    }
}

fn is_index(index: u32, e: &Expr) -> bool
    ensures { result ≡ is_index index (out-Expr e.now) }
{
    match e {
        Expr::Scalar(slot, _) => *slot == index,
        _ => false,
    }
}

// What a subscript adds to the index.
fn shift_of(index: u32, e: &Expr) -> Option<i64>
    ensures same { result ≡ shift_of index e.now }
    ensures small { IfSome result IsSmall }
{
    match e {
        Expr::Scalar(slot, _) => { if *slot == index { Some(0) } else { None } }
        Expr::Binary(BinOp::Add, _, a, b, _) => {
            if is_index(index, a.get()) {
                constant_of(b.get())
            } else {
                None
            }
        }
        Expr::Binary(BinOp::Sub, _, a, b, _) => {
            if is_index(index, a.get()) {
                negated(constant_of(b.get()))
            } else {
                None
            }
        }
        _ => None,
    }
}

fn negated(c: Option<i64>) -> Option<i64>
    requires { IfSome c IsSmall }
    ensures same { result ≡ option_map neg_ℤ c }
    ensures small { IfSome result IsSmall }
{
    match c {
        Some(c) => Some(-c),
        None => None,
    }
}

// The point of a loop directive for a dimension of its template.
fn point_for(d: &LoopDirective, dim: Option<u32>) -> Option<Point>
    ensures { result ≡ point_for d.now dim }
{
    match dim {
        Some(k) => d.points.get(k as usize).copied(),
        None => None,
    }
}

// Whether a dimension of an array lies on a distributed one of its template.
fn is_distributed(template: &Template, dim: Option<u32>) -> bool
    ensures { result ≡ is_distributed (under template.now.spread dim) }
{
    match dim {
        Some(k) => match template.spread.get(k as usize) {
            Some(s) => s.dim.dist != Dist::Whole,
            None => false,
        },
        None => false,
    }
}

// The offset of a subscript's constant, with that of the align and less that of the point.
fn offset_by(c: i64, aligned: i32, point: i32) -> i64
    requires { IsSmall c }
    ensures { result ≡ (c +ℤ aligned) -ℤ point }
{
    c + aligned as i64 - point as i64
}

fn reach_by(by: i64, low: u32, high: u32) -> Reach
    ensures { result ≡ reach_one (record { by = by; low = low; high = high }) }
{
    Reach {
        own: by <= 0 && 0 <= by,
        within: -(low as i64) <= by && by <= high as i64,
    }
}

fn offset_at(l: &AlignedDim, e: &Expr, point: Option<Point>) -> Option<Reach>
    ensures { result ≡ option_map reach_one (offset_at l.now (Some e.now) point) }
{
    match point {
        Some(Point::Index { slot, offset }) => match shift_of(slot, e) {
            Some(c) => {
                let by = offset_by(c, l.target.offset, offset);
                Some(reach_by(by, l.low, l.high))
            }
            None => None,
        },
        _ => None,
    }
}

// Along one dimension of an array.
fn along(d: &LoopDirective, template: &Template, l: &AlignedDim, e: Option<&Expr>) -> Option<Reach>
    ensures { result ≡ reach_along d.now template.now.spread l.now (option_copied e.entry) }
{
    if !is_distributed(template, l.target.dim) {
        return Some(Reach {
            own: true,
            within: true,
        });
    }
    match e {
        Some(e) => offset_at(l, e, point_for(d, l.target.dim)),
        None => None,
    }
}

fn joined(a: Option<Reach>, b: Option<Reach>) -> Option<Reach>
    ensures { result ≡ join_reach a b }
{
    match (a, b) {
        (Some(a), Some(b)) => Some(Reach {
            own: a.own && b.own,
            within: a.within && b.within,
        }),
        _ => None,
    }
}

/// The offsets of an element, or none where a subscript of a distributed dimension isn't of the form.
pub fn offsets_of(d: &LoopDirective, map: &ArrayMap, subscripts: &[Expr]) -> Option<Reach>
    ensures { result ≡ reach_of (offsets_of d.now map.now subscripts.now) }
{
    let mut all = Some(Reach {
        own: true,
        within: true,
    });
    'dims: for (k, l) in map.aligned.as_slice().iter().enumerate() {
        let one = along(d, &map.template, l, at(subscripts, k));
        all = joined(all, one);
    }
    all
}
