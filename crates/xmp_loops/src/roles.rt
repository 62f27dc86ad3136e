// What each scalar is to a loop directive.
ghost use Rattle.std.specs.Prelude.{◌≡◌, ◌==◌, ℕ, OnOk, IfOk, false};
ghost use Rattle.std.specs.Prelude.{if◌then◌else◌};
ghost use Rattle.std.specs.List.{find};
ghost use Rattle.xmp_prog.specs.Numbers.{is_in};
ghost use Rattle.xmp_prog.specs.Statements.{indices_of};
ghost use Rattle.xmp_loops.specs.Roles.{or_reduced, reduced_by, role_by};
ghost use Rattle.xmp_loops.specs.Tables.{role_at};
ghost use Rattle.xmp_loops.specs.declared.role.Role.TheVariants.{Index, Own, Shared};

use crate::role::Role;
use crate::tables::Roles;
use std::alloc::{AllocError, Global};
use xmp_prog::{LoopDirective, LoopHead, Reduction};

// What the body writes is the iterations' own.
fn own_roles(alloc: Global, written: &[u32]) -> Result<Roles, AllocError>
    ensures { IfOk result (λ roles. (n : ℕ) → role_at roles n ≡ (if is_in written.now n then Own else Shared)) }
{
    let mut roles = Roles::new(alloc);
    'items: for slot in written {
        roles.put(*slot, Role::Own)?;
    }
    Ok(roles)
}

fn put_indices(roles: &mut Roles, nest: &[LoopHead]) -> Result<(), AllocError>
    ensures { OnOk result ((n : ℕ) → role_at roles.new n ≡ (if is_in (indices_of nest.now) n then Index else role_at roles.old n)) }
{
    'items: for head in nest {
        roles.put(head.index.number, Role::Index)?;
    }
    Ok(())
}

// What a scalar becomes where a reduction names it: the first one decides.
fn reduced(old: Role, r: &Reduction) -> Role
    ensures { result ≡ or_reduced old r.now.op }
{
    match old {
        Role::Reduced(_) => old,
        _ => Role::Reduced(r.op),
    }
}

fn put_reduction(roles: &mut Roles, r: &Reduction) -> Result<(), AllocError>
    ensures { OnOk result ((n : ℕ) → role_at roles.new n
        ≡ (if r.now.variable.number == n then or_reduced (role_at roles.old n) r.now.op else role_at roles.old n)) }
{
    let slot = r.variable.number;
    let old = roles.at(slot);
    roles.put(slot, reduced(old, r))
}

fn put_reductions(roles: &mut Roles, reductions: &[Reduction]) -> Result<(), AllocError>
    ensures { OnOk result ((n : ℕ) → role_at roles.new n
        ≡ reduced_by (role_at roles.old n) (find (λ r. r.variable.number == n) reductions.now)) }
{
    'items: for r in reductions {
        put_reduction(roles, r)?;
    }
    Ok(())
}

/// What each scalar is to a directive whose body writes these.
#[tactic(auto, using(crate::proofs::RoleLaws::role_put))]
pub fn roles_in(alloc: Global, d: &LoopDirective, written: &[u32]) -> Result<Roles, AllocError>
    ensures { IfOk result (λ roles. (n : ℕ) → role_at roles n
        ≡ role_by (find (λ r. r.variable.number == n) d.now.reductions) (is_in (indices_of d.now.nest) n) (is_in written.now n)) }
{
    let mut roles = own_roles(alloc, written)?;
    put_indices(&mut roles, d.nest.as_slice())?;
    put_reductions(&mut roles, d.reductions.as_slice())?;
    Ok(roles)
}

/// The roles at the bounds of the nest, which are read before the iterations: what the body writes doesn't count there.
pub fn bound_roles(alloc: Global, d: &LoopDirective) -> Result<Roles, AllocError>
    ensures { IfOk result (λ roles. (n : ℕ) → role_at roles n
        ≡ role_by (find (λ r. r.variable.number == n) d.now.reductions) (is_in (indices_of d.now.nest) n) false) }
{
    roles_in(alloc, d, &[])
}
