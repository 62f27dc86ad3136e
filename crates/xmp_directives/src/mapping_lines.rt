// Mapping directives where they stand: nodes, templates and distributions.
ghost use Rattle.std.specs.Prelude.{◌≡◌, ◌∷◌, [], IfOk, length, map};
ghost use Rattle.xmp_names.specs.Walk.{Does, each, constant};
ghost use Rattle.xmp_names.specs.Lists.{inner, listed, parts};
ghost use Rattle.xmp_directives.specs.MappingLines.{bounds_of, distribute_line, form_of, keep_distribution, line_of, mapping_at, mapping_line, mapping_of, new_nodes, new_template, nodes_line, nodes_part, nodes_star, nodes_with_sizes, ranged, sized, template_dimensions, template_line, template_with_sizes, width_of};

use crate::align_lines::{align_line, shadow_line};
use crate::directives::{node_set, second_of};
use crate::points::match_template;
use sqlite_items::Items;
use std::alloc::{AllocError, Global};
use xmp_base::Place;
use xmp_names::{
    Distribution, Form, Meaning, NodesLine, Notation, TemplateLine, World, notation, only,
    only_notation, part_at, range_size,
};
use xmp_syntax::{
    CommaList, DirectiveLine, DistForm, Expr, Inside, Mapping, Name, NodesSet, Several, Single,
};

// A mapping directive at its word.
fn mapping_at(world: &mut World, line: &DirectiveLine) -> Result<(), AllocError>
    ensures { Does (mapping_at line.now world.old) result world.new }
{
    world.directive_at(line.word)?;
    world.stands_outermost(line.word)
}

fn constants(
    world: &mut World,
    alloc: Global,
    list: &Several<Expr, Expr>,
) -> Result<Items<i64>, AllocError>
    ensures { Does (each constant (parts list.now) world.old) result world.new }
{
    let mut values = Items::new(alloc);
    'list: while let Some(x) = part_at(list, values.len()) {
        let value = world.constant(alloc, x)?;
        values.push(value)?;
    }
    Ok(values)
}

fn new_nodes(world: &mut World, line: NodesLine) -> Result<u32, AllocError>
    ensures { Does (new_nodes line world.old) result world.new }
{
    let Ok(number) = u32::try_from(world.mappings.nodes.len()) else {
        return Err(AllocError);
    };
    world.mappings.nodes.push(line)?;
    Ok(number)
}

fn nodes_line(
    world: &mut World,
    alloc: Global,
    line: NodesLine,
    name: &Name,
) -> Result<(), AllocError>
    ensures { Does (nodes_line line name.now world.old) result world.new }
{
    let number = new_nodes(world, line)?;
    world.declare(alloc, name, Meaning::Nodes(number))
}

// ---- templates

fn sized(world: &mut World, alloc: Global, x: &Expr) -> Result<(i64, i64), AllocError>
    ensures { Does (sized x.now world.old) result world.new }
{
    let size = world.constant(alloc, x)?;
    Ok((0, size))
}

fn bounds_of(first: i64, second: Option<i64>) -> (i64, i64)
    ensures { result ≡ bounds_of first second }
{
    match second {
        Some(upper) => (first, range_size(first, upper)),
        None => (1, first),
    }
}

fn ranged(
    world: &mut World,
    alloc: Global,
    x: &(Expr, Option<(Place, Expr)>),
) -> Result<(i64, i64), AllocError>
    ensures { Does (ranged x.now world.old) result world.new }
{
    let first = world.constant(alloc, &x.0)?;
    let second = second_of(world, alloc, &x.1)?;
    Ok(bounds_of(first, second))
}

fn all_sized(
    world: &mut World,
    alloc: Global,
    list: &[Inside<Expr>],
) -> Result<Items<(i64, i64)>, AllocError>
    ensures { Does (each sized (inner list.now) world.old) result world.new }
{
    let mut dims = Items::new(alloc);
    'list: for x in list {
        let dim = sized(world, alloc, &x.item)?;
        dims.push(dim)?;
    }
    Ok(dims)
}

fn all_ranged(
    world: &mut World,
    alloc: Global,
    list: &CommaList<(Expr, Option<(Place, Expr)>)>,
) -> Result<Items<(i64, i64)>, AllocError>
    ensures { Does (each ranged (listed list.now) world.old) result world.new }
{
    let mut dims = Items::new(alloc);
    let first = ranged(world, alloc, &list.first)?;
    dims.push(first)?;
    let more = list.more.as_slice();
    'more: for next in more {
        let dim = ranged(world, alloc, &next.item)?;
        dims.push(dim)?;
    }
    Ok(dims)
}

// The lower bound and the size of each dimension of a template.
fn template_dimensions(
    world: &mut World,
    alloc: Global,
    list: &Several<Expr, (Expr, Option<(Place, Expr)>)>,
) -> Result<Items<(i64, i64)>, AllocError>
    ensures { Does (template_dimensions list.now world.old) result world.new }
{
    match list {
        Several::Brackets(sizes) => all_sized(world, alloc, sizes.as_slice()),
        Several::Parens(ranges) => all_ranged(world, alloc, &ranges.item),
    }
}

fn lowers_in(alloc: Global, dims: &[(i64, i64)]) -> Result<Items<i64>, AllocError>
    ensures { IfOk result (λ l. l ≡ map (λ d. d.0) dims.now) }
{
    let mut done = Items::new(alloc);
    'dims: for dim in dims {
        done.push(dim.0)?;
    }
    Ok(done)
}

fn sizes_in(alloc: Global, dims: &[(i64, i64)]) -> Result<Items<i64>, AllocError>
    ensures { IfOk result (λ l. l ≡ map (λ d. d.1) dims.now) }
{
    let mut done = Items::new(alloc);
    'dims: for dim in dims {
        done.push(dim.1)?;
    }
    Ok(done)
}

fn new_template(
    world: &mut World,
    alloc: Global,
    at: Place,
    written: Notation,
    dims: &[(i64, i64)],
) -> Result<u32, AllocError>
    ensures { Does (new_template at written dims.now world.old) result world.new }
{
    let Ok(number) = u32::try_from(world.mappings.templates.len()) else {
        return Err(AllocError);
    };
    let line = TemplateLine {
        at,
        notation: written,
        lowers: lowers_in(alloc, dims)?,
        sizes: sizes_in(alloc, dims)?,
    };
    world.mappings.templates.push(line)?;
    Ok(number)
}

fn template_line(
    world: &mut World,
    alloc: Global,
    at: Place,
    name: &Name,
    written: Notation,
    dims: &[(i64, i64)],
) -> Result<(), AllocError>
    ensures { Does (template_line at name.now written dims.now world.old) result world.new }
{
    let number = new_template(world, alloc, at, written, dims)?;
    world.declare(alloc, name, Meaning::Template(number))
}

// ---- distributions

fn width_of(
    world: &mut World,
    alloc: Global,
    width: &Option<Inside<Expr>>,
) -> Result<i64, AllocError>
    ensures { Does (width_of width.now world.old) result world.new }
{
    match width {
        Some(x) => world.constant(alloc, &x.item),
        None => Ok(1),
    }
}

fn lengths_of(
    world: &mut World,
    alloc: Global,
    list: &CommaList<Expr>,
) -> Result<Items<i64>, AllocError>
    ensures { Does (each constant (listed list.now) world.old) result world.new }
{
    let mut lengths = Items::new(alloc);
    let first = world.constant(alloc, &list.first)?;
    lengths.push(first)?;
    let more = list.more.as_slice();
    'more: for next in more {
        let length = world.constant(alloc, &next.item)?;
        lengths.push(length)?;
    }
    Ok(lengths)
}

fn form_of(world: &mut World, alloc: Global, form: &DistForm) -> Result<Form, AllocError>
    ensures { Does (form_of form.now world.old) result world.new }
{
    match form {
        DistForm::Whole(_) => Ok(Form::Whole),
        DistForm::Block(_) => Ok(Form::Block),
        DistForm::Cyclic(_, width) => {
            let width = width_of(world, alloc, width)?;
            Ok(Form::Cyclic(width))
        }
        DistForm::Gblock(_, lengths) => {
            let lengths = lengths_of(world, alloc, &lengths.item.item)?;
            Ok(Form::Gblock(lengths))
        }
    }
}

fn forms_of(
    world: &mut World,
    alloc: Global,
    list: &Several<DistForm, DistForm>,
) -> Result<Items<Form>, AllocError>
    ensures { Does (each form_of (parts list.now) world.old) result world.new }
{
    let mut forms = Items::new(alloc);
    'list: while let Some(x) = part_at(list, forms.len()) {
        let form = form_of(world, alloc, x)?;
        forms.push(form)?;
    }
    Ok(forms)
}

fn keep_distribution(
    world: &mut World,
    at: Place,
    template: Option<u32>,
    forms: Items<Form>,
) -> Result<(), AllocError>
    ensures { Does (keep_distribution at template forms world.old) result world.new }
{
    match template {
        Some(template) => {
            let line = Distribution {
                at,
                template,
                forms,
            };
            world.mappings.distributions.push(line)
        }
        None => Ok(()),
    }
}

fn distribute_line(
    world: &mut World,
    alloc: Global,
    at: Place,
    template: &Name,
    list: &Several<DistForm, DistForm>,
    onto: &Name,
) -> Result<(), AllocError>
    ensures { Does (distribute_line at template.now list.now onto.now world.old) result world.new }
{
    let number = world.template_of(template)?;
    let forms = forms_of(world, alloc, list)?;
    match_template(world, number, notation(list), forms.len(), template.at)?;
    world.nodes_array_of(onto)?;
    keep_distribution(world, at, number, forms)
}

// ---- all of them

fn nodes_with_sizes(
    world: &mut World,
    alloc: Global,
    line: &DirectiveLine,
    name: &Name,
    sizes: &Several<Expr, Expr>,
) -> Result<(), AllocError>
    ensures { Does (nodes_with_sizes line.now name.now sizes.now world.old) result world.new }
{
    let values = constants(world, alloc, sizes)?;
    let kept = NodesLine {
        at: line.word,
        notation: notation(sizes),
        sizes: Some(values),
        part: false,
    };
    nodes_line(world, alloc, kept, name)
}

fn nodes_star(
    world: &mut World,
    alloc: Global,
    line: &DirectiveLine,
    name: &Name,
    star: &Single<Place>,
) -> Result<(), AllocError>
    ensures { Does (nodes_star line.now name.now star.now world.old) result world.new }
{
    let kept = NodesLine {
        at: line.word,
        notation: only_notation(star),
        sizes: None,
        part: false,
    };
    nodes_line(world, alloc, kept, name)
}

// One value in a list.
fn one_value(alloc: Global, value: i64) -> Result<Items<i64>, AllocError>
    ensures { IfOk result (λ l. l ≡ value ∷ []) }
{
    let mut values = Items::new(alloc);
    values.push(value)?;
    Ok(values)
}

// A part of a nodes array.
fn nodes_part(
    world: &mut World,
    alloc: Global,
    line: &DirectiveLine,
    name: &Name,
    size: &Single<Expr>,
    set: &NodesSet,
) -> Result<(), AllocError>
    ensures { Does (nodes_part line.now name.now size.now set.now world.old) result world.new }
{
    let value = world.constant(alloc, only(size))?;
    node_set(world, alloc, false, line.word, set)?;
    let kept = NodesLine {
        at: line.word,
        notation: only_notation(size),
        sizes: Some(one_value(alloc, value)?),
        part: true,
    };
    nodes_line(world, alloc, kept, name)
}

fn template_with_sizes(
    world: &mut World,
    alloc: Global,
    line: &DirectiveLine,
    name: &Name,
    sizes: &Several<Expr, (Expr, Option<(Place, Expr)>)>,
) -> Result<(), AllocError>
    ensures { Does (template_with_sizes line.now name.now sizes.now world.old) result world.new }
{
    let dims = template_dimensions(world, alloc, sizes)?;
    template_line(
        world,
        alloc,
        line.word,
        name,
        notation(sizes),
        dims.as_slice(),
    )
}

// What a mapping directive keeps.
fn mapping_line(world: &mut World, alloc: Global, mapping: &Mapping) -> Result<(), AllocError>
    ensures { Does (mapping_line mapping.now world.old) result world.new }
{
    match mapping {
        Mapping::Nodes(line, name, sizes) => { nodes_with_sizes(world, alloc, line, name, sizes) }
        Mapping::NodesStar(line, name, star) => nodes_star(world, alloc, line, name, star),
        Mapping::NodesPart(line, name, size, _, set) => {
            nodes_part(world, alloc, line, name, size, set)
        }
        Mapping::Template(line, name, sizes) => {
            template_with_sizes(world, alloc, line, name, sizes)
        }
        Mapping::Distribute(line, template, forms, _, onto) => {
            distribute_line(world, alloc, line.word, template, forms, onto)
        }
        Mapping::Align(line, array, dimensions, _, template, points) => {
            let dimensions = dimensions.as_slice();
            align_line(world, alloc, line.word, array, dimensions, template, points)
        }
        Mapping::Shadow(line, array, widths) => {
            shadow_line(world, alloc, line.word, array, widths.as_slice())
        }
    }
}

/// A mapping directive where it stands.
pub fn keep_mapping(world: &mut World, alloc: Global, mapping: &Mapping) -> Result<(), AllocError>
    ensures { Does (mapping_of mapping.now world.old) result world.new }
{
    mapping_at(world, line_of(mapping))?;
    mapping_line(world, alloc, mapping)
}

fn line_of(mapping: &Mapping) -> &DirectiveLine
    ensures { result.now ≡ line_of mapping.now }
{
    match mapping {
        Mapping::Nodes(line, _, _) => line,
        Mapping::NodesStar(line, _, _) => line,
        Mapping::NodesPart(line, _, _, _, _) => line,
        Mapping::Template(line, _, _) => line,
        Mapping::Distribute(line, _, _, _, _) => line,
        Mapping::Align(line, _, _, _, _, _) => line,
        Mapping::Shadow(line, _, _) => line,
    }
}
