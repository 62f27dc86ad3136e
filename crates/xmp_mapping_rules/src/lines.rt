// The first lines on the templates and arrays of a world.
ghost use Rattle.std.specs.Prelude.{◌≡◌, ◌∷◌, [], IfOk, is_some, option_copied, pos};
ghost use Rattle.xmp_mapping_rules.specs.MappingRules.{align_of, aligned, distributed, distribution_of, first_nodes, forms_of, item_at, nodes_of, shadow_of, shadowed, sizes_or_row, template_lowers, template_sizes};
ghost use Rattle.xmp_mapping_rules.specs.Numbers.{first_place, is_at};

use crate::nodes_rules::first_nodes;
use crate::numbers::{Numbers, is_at};
use sqlite_items::Items;
use std::alloc::{AllocError, Global};
use std::marker::Model;
use xmp_names::{Align, Distribution, Form, NodesLine, Shadow, World, given_or_one, line_sizes};

/// A world with the sizes of its nodes array, and with the first line on each of its templates and arrays, which is found
/// at once. A clause sees the world.
#[derive(Drop)]
pub struct Lines<'a> {
    world: &'a World,
    nodes: Items<i64>,
    distributions: Numbers,
    aligns: Numbers,
    shadows: Numbers,
}

impl<'a> Model for Lines<'a> {
    ghost use Rattle.xmp_names.specs.declared.world.World.{World};
    ghost use Rattle.xmp_mapping_rules.specs.Lines.{AreFirst};
    ghost use Rattle.xmp_prog.specs.contracts.expressions.Expr as expr;
    ghost use Rattle.xmp_prog.specs.contracts.statements.Stmt as stmt;
    ghost use Rattle.std.specs.Coded.{codes};

    ghost Value = { World };

    ghost coded = { Prim.hlevel (codes, expr.the_row.coded, stmt.the_row.coded) };

    ghost view = { λ l. l.world.now };

    ghost invariant = { λ l. AreFirst l.world.now l.nodes l.distributions l.aligns l.shadows };
}

fn one_size(alloc: Global, size: u32) -> Result<Items<i64>, AllocError>
    ensures { IfOk result (λ sizes. sizes ≡ pos size ∷ []) }
{
    let mut sizes = Items::new(alloc);
    sizes.push(i64::from(size))?;
    Ok(sizes)
}

// The line of the nodes array of a program.
fn nodes_line(w: &World) -> Option<&NodesLine>
    ensures { option_copied result ≡ item_at w.now.mappings.nodes (first_nodes w.now) }
{
    match first_nodes(w) {
        Some(place) => w.mappings.nodes.get(place),
        None => None,
    }
}

// The sizes of the nodes array of a program; where there is none all nodes stand in a row.
fn nodes_of(alloc: Global, w: &World) -> Result<Items<i64>, AllocError>
    ensures { IfOk result (λ sizes. sizes ≡ nodes_of w.now) }
{
    match nodes_line(w) {
        Some(line) => line_sizes(alloc, given_or_one(w), line),
        None => one_size(alloc, given_or_one(w)),
    }
}

// The template of each distribution, in the order of the text.
fn distributed(alloc: Global, w: &World) -> Result<Numbers, AllocError>
    ensures { IfOk result (λ ns. ns ≡ distributed w.now) }
{
    let mut numbers = Numbers::new(alloc);
    let lines = w.mappings.distributions.as_slice();
    'lines: for line in lines {
        numbers.push(line.template as usize)?;
    }
    Ok(numbers)
}

// The array of each align, in the order of the text.
fn aligned(alloc: Global, w: &World) -> Result<Numbers, AllocError>
    ensures { IfOk result (λ ns. ns ≡ aligned w.now) }
{
    let mut numbers = Numbers::new(alloc);
    let lines = w.mappings.aligns.as_slice();
    'lines: for line in lines {
        numbers.push(line.array as usize)?;
    }
    Ok(numbers)
}

// The array of each shadow, in the order of the text.
fn shadowed(alloc: Global, w: &World) -> Result<Numbers, AllocError>
    ensures { IfOk result (λ ns. ns ≡ shadowed w.now) }
{
    let mut numbers = Numbers::new(alloc);
    let lines = w.mappings.shadows.as_slice();
    'lines: for line in lines {
        numbers.push(line.array as usize)?;
    }
    Ok(numbers)
}

impl<'a> Lines<'a> {
    /// Takes time linear in the number of lines.
    pub fn new(alloc: Global, world: &'a World) -> Result<Lines<'a>, AllocError>
        ensures { IfOk result (λ l. l ≡ world.now) }
    {
        let nodes = nodes_of(alloc, world)?;
        let distributions = distributed(alloc, world)?;
        let aligns = aligned(alloc, world)?;
        let shadows = shadowed(alloc, world)?;
        Ok(Lines {
            world,
            nodes,
            distributions,
            aligns,
            shadows,
        })
    }

    pub fn world(&self) -> &'a World
        ensures { result.now ≡ self.now }
    {
        self.world
    }

    /// The sizes of the nodes array; where there is none all nodes stand in a row.
    pub fn nodes(&self) -> &[i64]
        ensures { result.now ≡ nodes_of self.now }
    {
        self.nodes.as_slice()
    }

    /// The first distribution of a template.
    pub fn distribution_of(&self, template: usize) -> Option<&'a Distribution>
        ensures { option_copied result ≡ distribution_of self.now template }
    {
        match self.distributions.first_place(template) {
            Some(place) => self.world.mappings.distributions.get(place),
            None => None,
        }
    }

    /// Whether a template is distributed.
    pub(crate) fn has_distribution(&self, template: usize) -> bool
        ensures { result ≡ is_some (first_place template (distributed self.now)) }
    {
        self.distributions.first_place(template).is_some()
    }

    /// The forms of a template; none where it is never distributed.
    pub fn forms_of(&self, template: usize) -> &'a [Form]
        ensures { result.now ≡ forms_of self.now template }
    {
        match self.distribution_of(template) {
            Some(distribution) => distribution.forms.as_slice(),
            None => &[],
        }
    }

    /// The first align of an array.
    pub fn align_of(&self, array: usize) -> Option<&'a Align>
        ensures { option_copied result ≡ align_of self.now array }
    {
        match self.aligns.first_place(array) {
            Some(place) => self.world.mappings.aligns.get(place),
            None => None,
        }
    }

    /// The first shadow of an array.
    pub fn shadow_of(&self, array: usize) -> Option<&'a Shadow>
        ensures { option_copied result ≡ shadow_of self.now array }
    {
        match self.shadows.first_place(array) {
            Some(place) => self.world.mappings.shadows.get(place),
            None => None,
        }
    }

    /// Whether the i-th distribution is the first of its template, and the same of an align and a shadow of an array.
    pub(crate) fn is_first_distribution(&self, i: usize, template: u32) -> bool
        ensures { result ≡ is_at i (first_place template (distributed self.now)) }
    {
        is_at(i, self.distributions.first_place(template as usize))
    }

    pub(crate) fn is_first_align(&self, i: usize, array: u32) -> bool
        ensures { result ≡ is_at i (first_place array (aligned self.now)) }
    {
        is_at(i, self.aligns.first_place(array as usize))
    }

    pub(crate) fn is_first_shadow(&self, i: usize, array: u32) -> bool
        ensures { result ≡ is_at i (first_place array (shadowed self.now)) }
    {
        is_at(i, self.shadows.first_place(array as usize))
    }

    /// The sizes of a template.
    pub(crate) fn template_sizes(&self, template: u32) -> &'a [i64]
        ensures { result.now ≡ template_sizes self.now template }
    {
        match self.world.mappings.templates.get(template as usize) {
            Some(line) => line.sizes.as_slice(),
            None => &[],
        }
    }

    /// The lower bounds of a template.
    pub fn template_lowers(&self, template: u32) -> &'a [i64]
        ensures { result.now ≡ template_lowers self.now template }
    {
        match self.world.mappings.templates.get(template as usize) {
            Some(line) => line.lowers.as_slice(),
            None => &[],
        }
    }
}
