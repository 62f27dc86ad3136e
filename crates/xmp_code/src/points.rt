// Instructions on the maps of arrays and on templates.
ghost use Rattle.std.specs.Prelude.{◌≡◌, ◌<◌, true, slice_index, slice_get, length, Some, ◌≤ℤ◌, ◌-ℤ◌};
ghost use Rattle.xmp_map.specs.Held.{extents, node_count};
ghost use Rattle.xmp_map.specs.RowMajor.{product};
ghost use Rattle.xmp_num.specs.Arithmetic.{truth};
ghost use Rattle.xmp_meaning.specs.Expressions.{natural};
ghost use Rattle.xmp_instr.specs.Tables.{first_owned, local_position, next_owned, owns};
ghost use Rattle.xmp_instr.specs.Valid.{InRange, IsValid};
ghost use Rattle.xmp_instr.specs.declared.instr.Instr.TheVariants as i;
ghost use Rattle.xmp_code.specs.States.{node_of};
ghost use Rattle.xmp_code.specs.Actions.{IsActionOf, is_point};

use crate::action::Action;
use crate::state::State;
use crate::values::within;
use xmp_dist::Dim;
use xmp_instr::{CodeParts, Instr};
use xmp_map::{ArrayMap, Template};

/// The local position of a subscript, or -1.
fn position(map: &ArrayMap, node: u32, d: u32, x: u32) -> i64
    requires node { node < node_count map.now }
    requires dimension { d < map.now.dims }
    requires inside { x < slice_index (extents map.now) d }
    ensures { result ≡ local_position map.now node d x }
{
    match map.local(node, d, x) {
        Some(l) => i64::from(l),
        None => -1,
    }
}

/// 1 or 0, as a node owns a point or not.
fn is_owned(template: &Template, node: u32, point: &[i64]) -> i64
    requires node { node < product template.now.grid.sizes }
    requires positions { length point.now ≡ template.now.dims }
    ensures { result ≡ truth (owns template.now node point.now) }
{
    if template.owns(node, point) { 1 } else { 0 }
}

/// The first position from `g` on and before `end` that a node of a dimension owns, or `end`.
fn next_along(dim: &Dim, c: u32, g: i64, end: i64) -> i64
    requires node { c < dim.now.nodes }
    requires order { g ≤ℤ end }
    ensures { result ≡ first_owned dim.now c g (natural (end -ℤ g)) }
{
    dim.next_owned(c, g, end)
}

/// The same of a dimension of a template, for a node by its number.
fn next_position(template: &Template, node: u32, d: u32, g: i64, end: i64) -> i64
    requires node { node < product template.now.grid.sizes }
    requires dimension { d < template.now.dims }
    requires order { g ≤ℤ end }
    ensures { result ≡ next_owned template.now node d g (natural (end -ℤ g)) }
{
    let _spread = template.spread[2];
    let _sizes = template.grid.sizes[2];
    let c = template.at(node, d);
    next_along(template.dim(d), c, g, end)
}

fn local(code: &CodeParts, state: &State, m: u32, d: u32) -> Action
    requires valid { IsValid code.now }
    requires range { InRange code.now (i.Local m d) }
    ensures { IsActionOf code.now (i.Local m d) (node_of state.now) result }
{
    match (code.maps.get(m as usize), state.stack.top()) {
        (Some(map), Some(x)) => match within(x, u64::from(map.extent(d))) {
            Some(x) => Action::Value(1, position(map, code.node, d, x as u32)),
            None => Action::Stuck,
        },
        _ => Action::Stuck,
    }
}

fn mine(code: &CodeParts, state: &State, t: u32, n: u32) -> Action
    requires valid { IsValid code.now }
    requires range { InRange code.now (i.Mine t n) }
    ensures { IsActionOf code.now (i.Mine t n) (node_of state.now) result }
{
    match (code.templates.get(t as usize), state.stack.many(n as usize)) {
        (Some(template), Some(point)) => {
            Action::Value(n as usize, is_owned(template, code.node, point))
        }
        _ => Action::Stuck,
    }
}

fn next_mine(code: &CodeParts, state: &State, t: u32, d: u32) -> Action
    requires valid { IsValid code.now }
    requires range { InRange code.now (i.NextMine t d) }
    ensures { IsActionOf code.now (i.NextMine t d) (node_of state.now) result }
{
    match (code.templates.get(t as usize), state.stack.two()) {
        (Some(template), Some((g, end))) => {
            if g <= end {
                Action::Value(2, next_position(template, code.node, d, g, end))
            } else {
                Action::Stuck
            }
        }
        _ => Action::Stuck,
    }
}

/// The action of an instruction on a map or a template.
pub fn of_points(code: &CodeParts, state: &State, instr: Instr) -> Action
    requires group { is_point instr ≡ true }
    requires valid { IsValid code.now }
    requires range { InRange code.now instr }
    ensures { IsActionOf code.now instr (node_of state.now) result }
{
    match instr {
        Instr::Local(m, d) => local(code, state, m, d),
        Instr::Mine(t, n) => mine(code, state, t, n),
        Instr::NextMine(t, d) => next_mine(code, state, t, d),
        _ => unreachable!(),
    }
}
