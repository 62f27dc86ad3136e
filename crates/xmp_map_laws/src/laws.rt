// Grids, templates and maps are there where nothing is wrong with their parts.
ghost use Rattle.std.specs.Prelude.{◌≡◌, ◌≤◌, ℕ, List, IsTrue, None, length, map};
ghost use Rattle.xmp_base.specs.Limits.{cell_limit};
ghost use Rattle.xmp_dist.specs.declared.form.Dist.{Dist};
ghost use Rattle.xmp_dist.specs.declared.form.Dist.TheVariants.{Whole};
ghost use Rattle.xmp_map.specs.declared.aligned.Target.{Target};
ghost use Rattle.xmp_map.specs.declared.array_map.ArrayMap.{ArrayMap};
ghost use Rattle.xmp_map.specs.declared.grid.Grid.{Grid};
ghost use Rattle.xmp_map.specs.declared.template.Template.{Template};
ghost use Rattle.xmp_map.specs.Align.{aligned_dims, map_fault};
ghost use Rattle.xmp_map.specs.Nodes.{filled, makes_grid};
ghost use Rattle.xmp_map.specs.RowMajor.{product};
ghost use Rattle.xmp_map.specs.Spread.{sizes_fit, template_fault};

/// Of sizes that are those of a grid there is one.
pub fn some_grid()
    ensures { (sizes : List ℕ) → IsTrue (makes_grid sizes) → (g : Grid) × (g.sizes ≡ filled 1 sizes) × (g.dims ≡ length sizes) }
{}

/// Of sizes and forms in which a template over a grid has no fault there is one.
pub fn some_template()
    ensures { (g : Grid) (sizes : List ℕ) (dists : List Dist) → length g.sizes ≡ 3 → template_fault g.dims g.sizes sizes dists ≡ None
        → (t : Template) × (t.grid ≡ g) × (t.dims ≡ length sizes)
        × (map (λ s. s.dim.size) t.spread ≡ filled 1 sizes) × (map (λ s. s.dim.dist) t.spread ≡ filled Whole dists) }
{}

/// Of extents, targets and widths in which a map over a template has no fault there is one.
pub fn some_map()
    ensures { (t : Template) (extents : List ℕ) (targets : List Target) (widths : List (ℕ × ℕ)) → length targets ≡ length extents
        → length widths ≡ length extents → IsTrue (sizes_fit extents) → product extents ≤ cell_limit
        → map_fault t.dims t.spread (aligned_dims extents targets widths) ≡ None
        → (m : ArrayMap) × (m.template ≡ t) × (m.dims ≡ length extents) × (m.aligned ≡ aligned_dims extents targets widths) }
{}
