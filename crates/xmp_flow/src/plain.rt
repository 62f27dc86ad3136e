// The events of the statements that hold no statement.
ghost use Rattle.std.specs.Prelude.{◌≡◌, ◌++◌, ◌∷◌, ◌&&◌, ◌||◌, [], map, IfOk, OnOk, not, is_some, List, Option};
ghost use Rattle.std.specs.Option.{option_map};
ghost use Rattle.xmp_paths.specs.Plans.{in_order};
ghost use Rattle.xmp_paths.specs.Flows.{plan_of};
ghost use Rattle.xmp_prog.specs.declared.expressions.Expr.{Expr};
ghost use Rattle.xmp_prog.specs.declared.statements.Target.TheVariants as Target;
ghost use Rattle.xmp_prog.specs.declared.statements.Plain.TheVariants as Plain;
ghost use Rattle.xmp_flow.specs.Setting.{is_alone, is_first_alone, wrong_where};
ghost use Rattle.xmp_flow.specs.Reads.{reads_of, reads_of_all, reads_of_option, subscript_reads};
ghost use Rattle.xmp_flow.specs.Elements.{element_write};
ghost use Rattle.xmp_flow.specs.PlainEvents.{assignment_events, cast, moved, number_events, old_element, old_scalar, part_events, plain_events, plan_of_gmove, reflected, scalar_assigned, scanned, set_events, side_events, source_events};
ghost use Rattle.xmp_flow.specs.Views.{KnowsAll, setting_of};
ghost use Rattle.xmp_loops.specs.Views.{read_by};

use crate::elements::{element_read, element_write, home_of};
use crate::expressions::{reads, reads_of_each, with};
use crate::scalars::{assigned, read_scalar, wrong_where};
use crate::setting::Around;
use sqlite_items::Items;
use std::alloc::{AllocError, Global};
use xmp_base::Place;
use xmp_loops::{Form, Role, assignment_form, flag, is_number, nodes_in};
use xmp_map::NodeSet;
use xmp_paths::{Event, Flow};
use xmp_prog::{Access, Compound, Expr, Home, MoveSide, Name, Number, Part, Plain, Target};

// A scalar is assigned, and may not be a reduction variable.
fn scalar_assigned(alloc: Global, s: &Around, slot: u32, at: Place) -> Result<Flow, AllocError>
    requires { KnowsAll s.now }
    ensures { IfOk result (λ flow. plan_of flow ≡ in_order (scalar_assigned (setting_of s.now) slot at)) }
{
    let reduced = matches!(s.roles.at(slot), Role::Reduced(_));
    let wrong = wrong_where(alloc, reduced, 5, at);
    Flow::both(alloc, wrong, assigned(s, slot))
}

fn old_scalar(alloc: Global, s: &Around, slot: u32, at: Place, compound: Option<Compound>) -> Flow
    ensures { plan_of result ≡ old_scalar (setting_of s.now) slot at compound }
{
    match compound {
        Some(_) => read_scalar(alloc, s, slot, at),
        None => Flow::nothing(alloc),
    }
}

fn old_element(alloc: Global, s: &Around, a: &Access, compound: Option<Compound>) -> Flow
    requires { KnowsAll s.now }
    ensures { plan_of result ≡ old_element (setting_of s.now) a.now compound }
{
    match compound {
        Some(_) => element_read(alloc, s, a.array, a.subscripts.as_slice(), a.at),
        None => Flow::nothing(alloc),
    }
}

/// What a form reads.
pub fn form_reads(alloc: Global, s: &Around, form: Form<'_>) -> Result<Option<Flow>, AllocError>
    requires { KnowsAll s.now }
    ensures { IfOk result (λ flow. option_map plan_of flow ≡ option_map (λ es. in_order (reads_of_all es (setting_of s.now))) (read_by form.entry)) }
{
    match form {
        Form::Beside => Ok(None),
        Form::One(e) => {
            let flow = one_read(alloc, s, e)?;
            Ok(Some(flow))
        }
        Form::Two(e, x) => {
            let flow = two_reads(alloc, s, e, x)?;
            Ok(Some(flow))
        }
    }
}

// The reads of one expression, as a list of one.
fn one_read(alloc: Global, s: &Around, e: &Expr) -> Result<Flow, AllocError>
    requires { KnowsAll s.now }
    ensures { IfOk result (λ flow. plan_of flow ≡ in_order (reads_of e.now (setting_of s.now) ∷ [])) }
{
    let first = reads(alloc, s, e)?;
    with(Items::new(alloc), first)
}

// The reads of two expressions.
fn two_reads(alloc: Global, s: &Around, e: &Expr, x: &Expr) -> Result<Flow, AllocError>
    requires { KnowsAll s.now }
    ensures { IfOk result (λ flow. plan_of flow ≡ in_order (reads_of e.now (setting_of s.now) ∷ reads_of x.now (setting_of s.now) ∷ [])) }
{
    let first = reads(alloc, s, e)?;
    match reads(alloc, s, x) {
        Ok(second) => Flow::both(alloc, first, second),
        Err(e) => {
            std::mem::drop(first);
            Err(e)
        }
    }
}

// A number of a gmove: all nodes read it.
fn number_events(alloc: Global, s: &Around, n: &Number) -> Result<Flow, AllocError>
    requires { KnowsAll s.now }
    ensures { IfOk result (λ flow. plan_of flow ≡ number_events (setting_of s.now) n.now) }
{
    let inside = Around {
        nodes: s.all,
        moving: true,
        ..*s
    };
    let part = reads(alloc, &inside, &n.value)?;
    let wrong = wrong_where(alloc, !is_number(&n.value), 12, n.at);
    Flow::both(alloc, part, wrong)
}

// The shadow of a distributed array is current on all nodes.
fn reflected(alloc: Global, s: &Around, a: &Name) -> Flow
    requires { KnowsAll s.now }
    ensures { plan_of result ≡ reflected (setting_of s.now) a.now }
{
    match home_of(s, a.number) {
        Some(Home::Spread(_, _)) => Flow::one(Event::Mark {
            object: 2 * a.number as u64 + 1,
            current: s.all,
            stale: 0,
        }),
        _ => Flow::nothing(alloc),
    }
}

// A scalar is read at the source of a bcast, and current on all nodes then.
fn cast(alloc: Global, s: &Around, from: &NodeSet, v: &Name) -> Result<Flow, AllocError>
    requires { KnowsAll s.now }
    ensures { IfOk result (λ flow. plan_of flow ≡ cast (setting_of s.now) from.now v.now) }
{
    let object = 2 * v.number as u64;
    let read = Flow::one(Event::Read {
        object,
        nodes: nodes_in(&s.program.grid, from),
        rule: 11,
        at: v.at,
    });
    let mark = Flow::one(Event::Mark {
        object,
        current: s.all,
        stale: 0,
    });
    Flow::both(alloc, read, mark)
}

// The source of a gmove, where it isn't distributed.
fn source_events(alloc: Global, s: &Around, from: &MoveSide) -> Flow
    requires { KnowsAll s.now }
    ensures { plan_of result ≡ source_events (setting_of s.now) from.now }
{
    match from {
        MoveSide::Scalar(v) => Flow::one(Event::Read {
            object: 2 * v.number as u64,
            nodes: s.all,
            rule: 1,
            at: v.at,
        }),
        MoveSide::Array(a, _) => match home_of(s, a.number) {
            Some(Home::Copy) => Flow::one(Event::Read {
                object: 2 * a.number as u64 + 1,
                nodes: s.all,
                rule: 1,
                at: a.at,
            }),
            _ => Flow::nothing(alloc),
        },
    }
}

// The target of a gmove.
fn moved(alloc: Global, s: &Around, to: &MoveSide) -> Flow
    requires { KnowsAll s.now }
    ensures { plan_of result ≡ moved (setting_of s.now) to.now }
{
    match to {
        MoveSide::Scalar(v) => Flow::one(Event::Mark {
            object: 2 * v.number as u64,
            current: s.all,
            stale: 0,
        }),
        MoveSide::Array(a, _) => match home_of(s, a.number) {
            Some(Home::Copy) => wrong_where(alloc, s.over.is_some(), 6, a.at),
            Some(Home::Spread(_, _)) => Flow::one(Event::Mark {
                object: 2 * a.number as u64 + 1,
                current: 0,
                stale: s.all,
            }),
            _ => Flow::nothing(alloc),
        },
    }
}

// A scalar is assigned, and may not be a reduction variable.
fn push_assigned(
    alloc: Global,
    s: &Around,
    slot: u32,
    at: Place,
    parts: &mut Items<Flow>,
) -> Result<(), AllocError>
    requires { KnowsAll s.now }
    ensures { OnOk result (map plan_of parts.new ≡ map plan_of parts.old ++ scalar_assigned (setting_of s.now) slot at) }
{
    let reduced = matches!(s.roles.at(slot), Role::Reduced(_));
    parts.push(wrong_where(alloc, reduced, 5, at))?;
    parts.push(assigned(s, slot))
}

// An assignment to a scalar that isn't a reduction form.
fn set_events(
    alloc: Global,
    s: &Around,
    slot: u32,
    at: Place,
    compound: Option<Compound>,
    value: &Expr,
) -> Result<Flow, AllocError>
    requires { KnowsAll s.now }
    ensures { IfOk result (λ flow. plan_of flow ≡ set_events (setting_of s.now) slot at compound value.now) }
{
    let mut parts = Items::new(alloc);
    parts.push(old_scalar(alloc, s, slot, at, compound))?;
    let part = reads(alloc, s, value)?;
    parts.push(part)?;
    push_assigned(alloc, s, slot, at, &mut parts)?;
    Ok(Flow::all(parts))
}

// What a form of an assignment reads, or what happens beside a form.
fn scalar_events(
    alloc: Global,
    s: &Around,
    slot: u32,
    at: Place,
    compound: Option<Compound>,
    value: &Expr,
) -> Result<Flow, AllocError>
    requires { KnowsAll s.now }
    ensures { IfOk result (λ flow. plan_of flow ≡ assignment_events (setting_of s.now) compound value.now (Target.Scalar slot at)) }
{
    if let Role::Reduced(r) = s.roles.at(slot) {
        let form = assignment_form(s.program, slot, r, at, compound, value);
        if let Some(flow) = form_reads(alloc, s, form)? {
            return Ok(flow);
        }
    }
    set_events(alloc, s, slot, at, compound, value)
}

// One more number of a gmove.
fn push_number(
    alloc: Global,
    s: &Around,
    n: &Number,
    parts: &mut Items<Flow>,
) -> Result<(), AllocError>
    requires { KnowsAll s.now }
    ensures { OnOk result (map plan_of parts.new ≡ map plan_of parts.old ++ number_events (setting_of s.now) n.now ∷ []) }
{
    let number = number_events(alloc, s, n)?;
    parts.push(number)
}

// The parts of a side of a gmove.
fn part_events(alloc: Global, s: &Around, part: &Part) -> Result<Flow, AllocError>
    requires { KnowsAll s.now }
    ensures { IfOk result (λ flow. plan_of flow ≡ part_events (setting_of s.now) part.now) }
{
    match part {
        Part::One(n) => number_events(alloc, s, n),
        Part::Many { base, length, step } => {
            let mut parts = Items::new(alloc);
            push_number(alloc, s, base, &mut parts)?;
            push_number(alloc, s, length, &mut parts)?;
            push_number(alloc, s, step, &mut parts)?;
            Ok(Flow::all(parts))
        }
    }
}

fn parts_events(alloc: Global, s: &Around, all: &[Part]) -> Result<Flow, AllocError>
    requires { KnowsAll s.now }
    ensures { IfOk result (λ flow. plan_of flow ≡ in_order (map (part_events (setting_of s.now)) all.now)) }
{
    let mut parts = Items::new(alloc);
    'items: for part in all {
        let flow = part_events(alloc, s, part)?;
        parts.push(flow)?;
    }
    Ok(Flow::all(parts))
}

fn side_events(alloc: Global, s: &Around, side: &MoveSide) -> Result<Flow, AllocError>
    requires { KnowsAll s.now }
    ensures { IfOk result (λ flow. plan_of flow ≡ side_events (setting_of s.now) side.now) }
{
    match side {
        MoveSide::Scalar(_) => Ok(Flow::nothing(alloc)),
        MoveSide::Array(_, parts) => parts_events(alloc, s, parts.as_slice()),
    }
}

// One more side of a gmove.
fn push_side(
    alloc: Global,
    s: &Around,
    side: &MoveSide,
    parts: &mut Items<Flow>,
) -> Result<(), AllocError>
    requires { KnowsAll s.now }
    ensures { OnOk result (map plan_of parts.new ≡ map plan_of parts.old ++ side_events (setting_of s.now) side.now ∷ []) }
{
    let flow = side_events(alloc, s, side)?;
    parts.push(flow)
}

// An assignment to an element: its subscripts, the old element of a compound one, the value, and the element.
fn element_events(
    alloc: Global,
    s: &Around,
    a: &Access,
    compound: Option<Compound>,
    value: &Expr,
) -> Result<Flow, AllocError>
    requires { KnowsAll s.now }
    ensures { IfOk result (λ flow. plan_of flow ≡ in_order (reads_of_all a.now.subscripts (setting_of s.now)
        ++ old_element (setting_of s.now) a.now compound ∷ reads_of value.now (setting_of s.now)
        ∷ element_write (setting_of s.now) a.now.array a.now.subscripts a.now.at ∷ [])) }
{
    let mut parts = reads_of_each(alloc, s, a.subscripts.as_slice())?;
    parts.push(old_element(alloc, s, a, compound))?;
    let part = reads(alloc, s, value)?;
    parts.push(part)?;
    with(
        parts,
        element_write(alloc, s, a.array, a.subscripts.as_slice(), a.at),
    )
}

// The arrays of a reflect.
fn reflected_each(alloc: Global, s: &Around, arrays: &[Name], at: Place) -> Result<Flow, AllocError>
    requires { KnowsAll s.now }
    ensures { IfOk result (λ flow. plan_of flow
        ≡ in_order (wrong_where (setting_of s.now).inside 10 at ∷ map (reflected (setting_of s.now)) arrays.now)) }
{
    let mut parts = Items::new(alloc);
    parts.push(wrong_where(alloc, s.inside, 10, at))?;
    'items: for a in arrays {
        parts.push(reflected(alloc, s, a))?;
    }
    Ok(Flow::all(parts))
}

// The scalars of a bcast.
fn cast_each(
    alloc: Global,
    s: &Around,
    variables: &[Name],
    from: &NodeSet,
    at: Place,
) -> Result<Flow, AllocError>
    requires { KnowsAll s.now }
    ensures { IfOk result (λ flow. plan_of flow
        ≡ in_order (wrong_where (setting_of s.now).inside 10 at ∷ map (cast (setting_of s.now) from.now) variables.now)) }
{
    let mut parts = Items::new(alloc);
    parts.push(wrong_where(alloc, s.inside, 10, at))?;
    'items: for v in variables {
        let part = cast(alloc, s, from, v)?;
        parts.push(part)?;
    }
    Ok(Flow::all(parts))
}

// A gmove.
fn gmove_events(
    alloc: Global,
    s: &Around,
    to: &MoveSide,
    from: &MoveSide,
    at: Place,
) -> Result<Flow, AllocError>
    requires { KnowsAll s.now }
    ensures { IfOk result (λ flow. plan_of flow ≡ plan_of_gmove (setting_of s.now) to.now from.now at) }
{
    let mut parts = Items::new(alloc);
    parts.push(wrong_where(alloc, s.inside, 10, at))?;
    push_side(alloc, s, to, &mut parts)?;
    push_side(alloc, s, from, &mut parts)?;
    parts.push(source_events(alloc, s, from))?;
    with(parts, moved(alloc, s, to))
}

fn option_reads(alloc: Global, s: &Around, value: &Option<Expr>) -> Result<Flow, AllocError>
    requires { KnowsAll s.now }
    ensures { IfOk result (λ flow. plan_of flow ≡ reads_of_option value.now (setting_of s.now)) }
{
    match value {
        Some(e) => reads(alloc, s, e),
        None => Ok(Flow::nothing(alloc)),
    }
}

// A declaration: its initialiser, and the scalar.
fn declared(
    alloc: Global,
    s: &Around,
    slot: u32,
    value: &Option<Expr>,
    at: Place,
) -> Result<Flow, AllocError>
    requires { KnowsAll s.now }
    ensures { IfOk result (λ flow. plan_of flow
        ≡ in_order (reads_of_option value.now (setting_of s.now) ∷ scalar_assigned (setting_of s.now) slot at)) }
{
    let mut parts = Items::new(alloc);
    let part = option_reads(alloc, s, value)?;
    parts.push(part)?;
    push_assigned(alloc, s, slot, at, &mut parts)?;
    Ok(Flow::all(parts))
}

// An assignment.
fn assignment_events(
    alloc: Global,
    s: &Around,
    to: &Target,
    compound: Option<Compound>,
    value: &Expr,
) -> Result<Flow, AllocError>
    requires { KnowsAll s.now }
    ensures { IfOk result (λ flow. plan_of flow ≡ assignment_events (setting_of s.now) compound value.now to.now) }
{
    match to {
        Target::Scalar(slot, at) => scalar_events(alloc, s, *slot, *at, compound, value),
        Target::Cell(a) => element_events(alloc, s, a, compound, value),
    }
}

// Expressions in order, and what is wrong behind them.
fn listed(alloc: Global, s: &Around, es: &[Expr], last: Flow) -> Result<Flow, AllocError>
    requires { KnowsAll s.now }
    ensures { IfOk result (λ flow. plan_of flow ≡ in_order (reads_of_all es.now (setting_of s.now) ++ plan_of last ∷ [])) }
{
    match reads_of_each(alloc, s, es) {
        Ok(parts) => with(parts, last),
        Err(e) => {
            std::mem::drop(last);
            Err(e)
        }
    }
}

// A scalar that `scanf` sets.
fn scalar_target(alloc: Global, s: &Around, slot: u32, at: Place) -> Result<Items<Flow>, AllocError>
    requires { KnowsAll s.now }
    ensures { IfOk result (λ parts. map plan_of parts ≡ scanned (setting_of s.now) (Target.Scalar slot at)) }
{
    let mut parts = Items::new(alloc);
    let reduced = matches!(s.roles.at(slot), Role::Reduced(_));
    parts.push(wrong_where(alloc, reduced, 5, at))?;
    parts.push(Flow::one(Event::Mark {
        object: 2 * slot as u64,
        current: 0,
        stale: s.all ^ s.nodes,
    }))?;
    Ok(parts)
}

// A scalar that `scanf` sets, and what is wrong behind it.
fn scalar_scanned(
    alloc: Global,
    s: &Around,
    slot: u32,
    at: Place,
    last: Flow,
) -> Result<Flow, AllocError>
    requires { KnowsAll s.now }
    ensures { IfOk result (λ flow. plan_of flow
        ≡ in_order (scanned (setting_of s.now) (Target.Scalar slot at) ++ plan_of last ∷ [])) }
{
    match scalar_target(alloc, s, slot, at) {
        Ok(parts) => with(parts, last),
        Err(e) => {
            std::mem::drop(last);
            Err(e)
        }
    }
}

// An element that `scanf` sets, and what is wrong behind it.
fn element_scanned(alloc: Global, s: &Around, a: &Access, last: Flow) -> Result<Flow, AllocError>
    requires { KnowsAll s.now }
    ensures { IfOk result (λ flow. plan_of flow ≡ in_order ((reads_of_all a.now.subscripts (setting_of s.now)
        ++ element_write (setting_of s.now) a.now.array a.now.subscripts a.now.at ∷ []) ++ plan_of last ∷ [])) }
{
    let mut parts = reads_of_each(alloc, s, a.subscripts.as_slice())?;
    parts.push(element_write(alloc, s, a.array, a.subscripts.as_slice(), a.at))?;
    with(parts, last)
}

// What is wrong with a `scanf` where it stands.
fn scan_wrong(alloc: Global, s: &Around, at: Place) -> Flow
    ensures { plan_of result ≡ wrong_where (is_some (setting_of s.now).over || not (is_first_alone (setting_of s.now))) 8 at }
{
    wrong_where(alloc, s.over.is_some() || s.nodes != 1, 8, at)
}

// `scanf`
fn scan_events(alloc: Global, s: &Around, to: &Target, at: Place) -> Result<Flow, AllocError>
    requires { KnowsAll s.now }
    ensures { IfOk result (λ flow. plan_of flow ≡ plain_events (Plain.Scan to.now at) (setting_of s.now)) }
{
    let wrong = scan_wrong(alloc, s, at);
    match to {
        Target::Scalar(slot, name) => scalar_scanned(alloc, s, *slot, *name, wrong),
        Target::Cell(a) => element_scanned(alloc, s, a, wrong),
    }
}

// `printf`
fn print_events(
    alloc: Global,
    s: &Around,
    arguments: &[Expr],
    at: Place,
) -> Result<Flow, AllocError>
    requires { KnowsAll s.now }
    ensures { IfOk result (λ flow. plan_of flow ≡ in_order (reads_of_all arguments.now (setting_of s.now)
        ++ wrong_where (is_some (setting_of s.now).over || not (is_alone (setting_of s.now))) 7 at ∷ [])) }
{
    let wrong = wrong_where(alloc, s.over.is_some() || s.nodes.count_ones() != 1, 7, at);
    listed(alloc, s, arguments, wrong)
}

// A call whose result isn't used.
fn call_events(
    alloc: Global,
    s: &Around,
    function: u32,
    arguments: &[Expr],
    at: Place,
) -> Result<Flow, AllocError>
    requires { KnowsAll s.now }
    ensures { IfOk result (λ flow. plan_of flow ≡ in_order (reads_of_all arguments.now (setting_of s.now)
        ++ wrong_where ((setting_of s.now).inside && (setting_of s.now).loops function) 9 at ∷ [])) }
{
    let wrong = wrong_where(alloc, s.inside && flag(s.loops, function), 9, at);
    listed(alloc, s, arguments, wrong)
}

/// The events of a statement that holds no statement.
pub fn plain_events(alloc: Global, s: &Around, p: &Plain) -> Result<Flow, AllocError>
    requires { KnowsAll s.now }
    ensures { IfOk result (λ flow. plan_of flow ≡ plain_events p.now (setting_of s.now)) }
{
    match p {
        Plain::Declare { slot, value, at } => declared(alloc, s, *slot, value, *at),
        Plain::Set {
            target,
            compound,
            value,
        } => assignment_events(alloc, s, target, *compound, value),
        Plain::Return(value) => reads(alloc, s, value),
        Plain::Call {
            function,
            arguments,
            at,
        } => call_events(alloc, s, *function, arguments.as_slice(), *at),
        Plain::Print { arguments, at, .. } => print_events(alloc, s, arguments.as_slice(), *at),
        Plain::Scan { target, at } => scan_events(alloc, s, target, *at),
        Plain::Sync { status, .. } => scalar_assigned(alloc, s, status.number, status.at),
        Plain::Reflect { arrays, at } => reflected_each(alloc, s, arrays.as_slice(), *at),
        Plain::Barrier { at } => Ok(wrong_where(alloc, s.inside, 10, *at)),
        Plain::Cast {
            variables,
            from,
            at,
        } => cast_each(alloc, s, variables.as_slice(), from, *at),
        Plain::Gmove { target, source, at } => gmove_events(alloc, s, target, source, *at),
    }
}
