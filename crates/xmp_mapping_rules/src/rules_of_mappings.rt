// All rules of mappings that are judged over the whole program.
ghost use Rattle.std.specs.Prelude.{◌≡◌, ◌++◌, IfOk, OnOk};
ghost use Rattle.xmp_mapping_rules.specs.MappingRules.{align_rules, cell_rules, distribution_rules, loop_rules, mapping_rules, nodes_rules, shadow_rules, template_rules};

use crate::align_rules::align_rules;
use crate::cell_rules::cell_rules;
use crate::lines::Lines;
use crate::nodes_rules::nodes_rules;
use crate::shadow_rules::{loop_rules, shadow_rules};
use crate::template_rules::{distribution_rules, template_rules};
use sqlite_items::Items;
use std::alloc::{AllocError, Global};
use xmp_names::Broken;

// The rules of nodes arrays, templates and distributions.
fn template_part(alloc: Global, lines: &Lines, broken: &mut Items<Broken>) -> Result<(), AllocError>
    ensures { OnOk result (broken.new ≡ broken.old ++ (nodes_rules lines.now ++ (template_rules lines.now ++ distribution_rules lines.now))) }
{
    nodes_rules(alloc, lines.world(), broken)?;
    template_rules(lines, broken)?;
    distribution_rules(lines, broken)
}

// The rules of aligns, shadows and loop directives, and of cells.
fn array_part(alloc: Global, lines: &Lines, broken: &mut Items<Broken>) -> Result<(), AllocError>
    ensures { OnOk result (broken.new ≡ broken.old ++ (align_rules lines.now ++ (shadow_rules lines.now ++ (loop_rules lines.now ++ cell_rules lines.now)))) }
{
    align_rules(alloc, lines, broken)?;
    shadow_rules(alloc, lines, broken)?;
    loop_rules(lines, broken)?;
    cell_rules(lines, broken)
}

/// The rules of mappings that a program breaks, M1 to M6 and M10, and M7 at the points of its loop directives.
/// Takes time linear in the size of what the world holds.
pub fn mapping_rules(alloc: Global, lines: &Lines) -> Result<Items<Broken>, AllocError>
    ensures { IfOk result (λ bs. bs ≡ mapping_rules lines.now) }
{
    let mut broken = Items::new(alloc);
    template_part(alloc, lines, &mut broken)?;
    array_part(alloc, lines, &mut broken)?;
    Ok(broken)
}
