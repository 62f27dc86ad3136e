// The rules of templates and their distributions.
ghost use Rattle.std.specs.Prelude.{◌≡◌, ◌==◌, ◌++◌, ◌&&◌, IfOk, OnOk, int_le, length, map, min, option_copied, pos, slice_get};
ghost use Rattle.std.specs.List.{count_by, list_all, sum};
ghost use Rattle.xmp_mapping_rules.specs.MappingRules.{counts, distributed, distribution_of, distribution_rule, distribution_rules, distributes, form_fits, form_right, forms_of, forms_right, has_intervals, is_distributed, lengths_right, nodes_behind, nodes_of, spread_right, template_rule, template_rules, template_sizes};
ghost use Rattle.xmp_names.specs.Sizes.{is_extent, is_small, natural};
ghost use Rattle.xmp_mapping_rules.specs.Numbers.{is_at};

use crate::lines::Lines;
use crate::nodes_rules::{judge, natural, one_to_three};
use sqlite_items::Items;
use std::alloc::{AllocError, Global};
use xmp_names::{Broken, Distribution, Form, Rule, TemplateLine, is_extent, is_small};

/// Whether a form distributes its dimension.
pub(crate) fn is_distributed(form: &Form) -> bool
    ensures { result ≡ is_distributed form.now }
{
    match form {
        Form::Whole => false,
        _ => true,
    }
}

/// Whether the form of a dimension, which may have none, distributes it.
pub(crate) fn distributes(forms: &[Form], i: usize) -> bool
    ensures { result ≡ distributes (slice_get forms.now i) }
{
    match forms.get(i) {
        Some(form) => is_distributed(form),
        None => false,
    }
}

/// Whether a form gives each node one interval.
pub(crate) fn has_intervals(form: &Form) -> bool
    ensures { result ≡ has_intervals form.now }
{
    match form {
        Form::Block => true,
        Form::Gblock(_) => true,
        _ => false,
    }
}

fn all_extents(sizes: &[i64]) -> bool
    ensures { result ≡ list_all is_extent sizes.now }
{
    'sizes: for size in sizes {
        if !is_extent(*size) {
            return false;
        }
    }
    true
}

fn all_small(lowers: &[i64]) -> bool
    ensures { result ≡ list_all is_small lowers.now }
{
    'lowers: for lower in lowers {
        if !is_small(*lower) {
            return false;
        }
    }
    true
}

fn template_rule(
    lines: &Lines,
    broken: &mut Items<Broken>,
    i: usize,
    line: &TemplateLine,
) -> Result<(), AllocError>
    ensures { OnOk result (broken.new ≡ broken.old ++ template_rule lines.now (i, line.now)) }
{
    let right = one_to_three(line.sizes.len())
        && (all_extents(line.sizes.as_slice()) && all_small(line.lowers.as_slice()));
    judge(broken, right, Rule::M2, line.at)?;
    judge(broken, lines.has_distribution(i), Rule::M3, line.at)
}

/// The rules that templates break.
pub(crate) fn template_rules(lines: &Lines, broken: &mut Items<Broken>) -> Result<(), AllocError>
    ensures { OnOk result (broken.new ≡ broken.old ++ template_rules lines.now) }
{
    let list = lines.world().mappings.templates.as_slice();
    'list: for (i, line) in list.iter().enumerate() {
        template_rule(lines, broken, i, line)?;
    }
    Ok(())
}

fn distributed_dimensions(forms: &[Form]) -> usize
    ensures { result ≡ count_by is_distributed forms.now }
{
    let mut count = 0;
    'forms: for form in forms {
        if is_distributed(form) {
            count += 1;
        }
    }
    count
}

fn spread_right(nodes: &[i64], sizes: &[i64], forms: &[Form]) -> bool
    ensures { result ≡ spread_right nodes.now sizes.now forms.now }
{
    forms.len() == sizes.len() && distributed_dimensions(forms) == nodes.len()
}

fn none_negative(lengths: &[i64]) -> bool
    ensures { result ≡ list_all (λ n. int_le (pos 0) n) lengths.now }
{
    'lengths: for n in lengths {
        if *n < 0 {
            return false;
        }
    }
    true
}

// The sum of the lengths that aren't negative, or the greatest number where it is more.
fn sum_of(lengths: &[i64]) -> u64
    ensures { result ≡ min (sum (map natural lengths.now)) 18446744073709551615 }
{
    let mut total = 0u64;
    'lengths: for n in lengths {
        total = total.saturating_add(natural(*n));
    }
    total
}

// Whether a number is this one.
fn counts(count: u64, number: i64) -> bool
    ensures { result ≡ counts count number }
{
    0 <= number && count == number as u64
}

// Whether the lengths have a sum. One that is cut off is beyond each size.
fn have_sum(lengths: &[i64], size: i64) -> bool
    ensures { result ≡ counts (sum (map natural lengths.now)) size }
{
    counts(sum_of(lengths), size)
}

fn lengths_right(lengths: &[i64], size: i64) -> bool
    ensures { result ≡ lengths_right lengths.now size }
{
    none_negative(lengths) && have_sum(lengths, size)
}

fn form_right(form: &Form, size: i64, parts: i64) -> bool
    ensures { result ≡ form_right form.now size parts }
{
    match form {
        Form::Whole => true,
        Form::Block => true,
        Form::Cyclic(width) => is_extent(*width),
        Form::Gblock(lengths) => {
            counts(lengths.len() as u64, parts) && lengths_right(lengths.as_slice(), size)
        }
    }
}

fn form_fits(form: &Form, size: i64, nodes: &[i64]) -> bool
    ensures { result ≡ form_fits form.now size nodes.now }
{
    match nodes.split_first() {
        Some((parts, _)) => form_right(form, size, *parts),
        None => true,
    }
}

// The dimensions of the nodes array that are left behind a form.
fn nodes_behind<'a>(form: &Form, nodes: &'a [i64]) -> &'a [i64]
    ensures { result.now ≡ nodes_behind form.now nodes.now }
{
    match nodes.split_first() {
        Some((_, more)) => { if is_distributed(form) { more } else { nodes } }
        None => nodes,
    }
}

fn forms_right(forms: &[Form], sizes: &[i64], nodes: &[i64]) -> bool
    ensures { result ≡ forms_right forms.now sizes.now nodes.now }
{
    let mut left = nodes;
    'forms: for (i, form) in forms.iter().enumerate() {
        let Some(size) = sizes.get(i) else {
            return true;
        };
        if !form_fits(form, *size, left) {
            return false;
        }
        left = nodes_behind(form, left);
    }
    true
}

fn distribution_rule(
    lines: &Lines,
    broken: &mut Items<Broken>,
    i: usize,
    line: &Distribution,
) -> Result<(), AllocError>
    ensures { OnOk result (broken.new ≡ broken.old ++ distribution_rule lines.now (i, line.now)) }
{
    let first = lines.is_first_distribution(i, line.template);
    let forms = line.forms.as_slice();
    let sizes = lines.template_sizes(line.template);
    let spread = first && spread_right(lines.nodes(), sizes, forms);
    judge(broken, spread, Rule::M3, line.at)?;
    let chunks = !first || forms_right(forms, sizes, lines.nodes());
    judge(broken, chunks, Rule::M4, line.at)
}

/// The rules that distributions break.
pub(crate) fn distribution_rules(
    lines: &Lines,
    broken: &mut Items<Broken>,
) -> Result<(), AllocError>
    ensures { OnOk result (broken.new ≡ broken.old ++ distribution_rules lines.now) }
{
    let list = lines.world().mappings.distributions.as_slice();
    'list: for (i, line) in list.iter().enumerate() {
        distribution_rule(lines, broken, i, line)?;
    }
    Ok(())
}
