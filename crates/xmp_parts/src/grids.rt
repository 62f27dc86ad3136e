// The grid and the templates of a program in which no rule breaks.
ghost use Rattle.std.specs.Prelude.{◌≡◌, ◌≤◌, [], IfOk, IsTrue, None, Some, length, map, option_copied, slice_get};
ghost use Rattle.std.specs.List.{list_all};
ghost use Rattle.xmp_dist.specs.declared.form.Dist.TheVariants.{Whole};
ghost use Rattle.xmp_map.specs.Nodes.{filled, makes_grid};
ghost use Rattle.xmp_map.specs.Spread.{template_fault};
ghost use Rattle.xmp_names.specs.Sizes.{natural};
ghost use Rattle.xmp_mapping_rules.specs.MappingRules.{forms_of, mapping_rules, nodes_of};
ghost use Rattle.xmp_parts.specs.Narrow.{is_count, is_narrow, is_narrow_form};
ghost use Rattle.xmp_parts.specs.Parts.{EachMade, IsGrid, IsOf, IsTemplate, made_form, padded};

use sqlite_items::Items;
use std::alloc::{AllocError, Global};
use xmp_dist::{Dist, Lengths};
use xmp_map::{Grid, Template};
use xmp_mapping_rules::Lines;
use xmp_walk::{Form, TemplateLine};

/// A number that no narrow type cuts off.
pub(crate) fn narrowed(n: i64) -> u32
    requires { IsTrue (is_narrow n) }
    ensures { result ≡ natural n }
{
    if n < 0 { 0 } else { n as u32 }
}

// The same of a list.
fn all_narrowed(alloc: Global, list: &[i64]) -> Result<Items<u32>, AllocError>
    requires { IsTrue (list_all is_narrow list.now) }
    ensures { IfOk result (λ ns. ns ≡ map natural list.now) }
{
    let mut done = Items::new(alloc);
    'list: for n in list {
        done.push(narrowed(*n))?;
    }
    Ok(done)
}

fn grid_of(sizes: &[u32]) -> Grid
    requires { IsTrue (makes_grid sizes.now) }
    ensures { IsGrid sizes.now result }
{
    match Grid::new(sizes) {
        Ok(grid) => grid,
        Err(_) => unreachable!(),
    }
}

/// The grid of a nodes array whose sizes are right.
pub(crate) fn made_grid(alloc: Global, nodes: &[i64]) -> Result<Grid, AllocError>
    requires narrow { IsTrue (list_all is_narrow nodes.now) }
    requires right { IsTrue (makes_grid (map natural nodes.now)) }
    ensures { IfOk result (λ g. IsGrid (map natural nodes.now) g) }
{
    let sizes = all_narrowed(alloc, nodes)?;
    Ok(grid_of(sizes.as_slice()))
}

// ---- templates

fn made_lengths(list: &[i64]) -> Lengths
    requires narrow { IsTrue (list_all is_narrow list.now) }
    requires few { length list.now ≤ 16 }
    ensures values { result.values ≡ padded 16 (map natural list.now) }
    ensures count { result.count ≡ length list.now }
{
    let mut values = [0u32; 16];
    'list: for (i, n) in list.iter().enumerate() {
        values[i] = narrowed(*n);
    }
    Lengths {
        values,
        count: list.len() as u32,
    }
}

fn made_form(form: &Form) -> Dist
    requires { IsTrue (is_narrow_form form.now) }
    ensures { result ≡ made_form form.now }
{
    match form {
        Form::Whole => Dist::Whole,
        Form::Block => Dist::Block,
        Form::Cyclic(width) => Dist::Cyclic(narrowed(*width)),
        Form::Gblock(lengths) => Dist::Gblock(made_lengths(lengths.as_slice())),
    }
}

fn made_forms(alloc: Global, forms: &[Form]) -> Result<Items<Dist>, AllocError>
    requires { IsTrue (list_all is_narrow_form forms.now) }
    ensures { IfOk result (λ ds. ds ≡ map made_form forms.now) }
{
    let mut done = Items::new(alloc);
    'forms: for form in forms {
        done.push(made_form(form))?;
    }
    Ok(done)
}

fn template_of(grid: &Grid, sizes: &[u32], dists: &[Dist]) -> Template
    requires { template_fault grid.now.dims grid.now.sizes sizes.now dists.now ≡ None }
    ensures grid { result.grid ≡ grid.now }
    ensures dims { result.dims ≡ length sizes.now }
    ensures sizes { map (λ s. s.dim.size) result.spread ≡ filled 1 sizes.now }
    ensures forms { map (λ s. s.dim.dist) result.spread ≡ filled Whole dists.now }
{
    match Template::new(grid, sizes, dists) {
        Ok(template) => template,
        Err(_) => unreachable!(),
    }
}

fn made_template(
    alloc: Global,
    grid: &Grid,
    sizes: &[i64],
    forms: &[Form],
) -> Result<Template, AllocError>
    requires sizes { IsTrue (list_all is_narrow sizes.now) }
    requires forms { IsTrue (list_all is_narrow_form forms.now) }
    requires right { template_fault grid.now.dims grid.now.sizes (map natural sizes.now) (map made_form forms.now) ≡ None }
    ensures { IfOk result (λ t. IsOf grid.now sizes.now forms.now t) }
{
    let sizes = all_narrowed(alloc, sizes)?;
    let dists = made_forms(alloc, forms)?;
    Ok(template_of(grid, sizes.as_slice(), dists.as_slice()))
}

fn template_at(
    alloc: Global,
    lines: &Lines,
    grid: &Grid,
    k: usize,
    line: &TemplateLine,
) -> Result<Template, AllocError>
    requires unbroken { mapping_rules lines.now ≡ [] }
    requires count { IsTrue (is_count lines.now.given) }
    requires grid { IsGrid (map natural (nodes_of lines.now)) grid.now }
    requires line { slice_get lines.now.mappings.templates k ≡ Some line.now }
    ensures { IfOk result (λ t. IsTemplate lines.now grid.now k t) }
{
    let forms = lines.forms_of(k);
    made_template(alloc, grid, line.sizes.as_slice(), forms)
}

/// The templates of a program in which no rule of mappings breaks, in the order of their declarations.
pub(crate) fn made_templates(
    alloc: Global,
    lines: &Lines,
    grid: &Grid,
) -> Result<Items<Template>, AllocError>
    requires unbroken { mapping_rules lines.now ≡ [] }
    requires count { IsTrue (is_count lines.now.given) }
    requires grid { IsGrid (map natural (nodes_of lines.now)) grid.now }
    ensures { IfOk result (λ ts. EachMade (λ k line t. IsTemplate lines.now grid.now k t) 0 lines.now.mappings.templates ts) }
{
    let list = lines.world().mappings.templates.as_slice();
    let mut made = Items::new(alloc);
    'list: for (k, line) in list.iter().enumerate() {
        made.push(template_at(alloc, lines, grid, k, line)?)?;
    }
    Ok(made)
}
