// The sides of a transfer, from a program.
ghost use Rattle.std.specs.Prelude.{◌≡◌, ◌++◌, ◌∷◌, [], IfOk, OnOk, map};
ghost use Rattle.xmp_meaning.specs.Declarations.{array_type, extents, home_of, scalar_type};
ghost use Rattle.xmp_nodes.specs.Rows.{type_of_side};
ghost use Rattle.xmp_exchanges.specs.Aims.{part_of, place_of, scalar_side, side_in, side_of_array};

use crate::words::Place;
use sqlite_items::Items;
use std::alloc::Global;
use xmp_base::NoMemory;
use xmp_move::{Side, SidePart};
use xmp_num::Ty;
use xmp_prog::{Home, MoveSide, Part, ProgParts};

// ---- what a program declares

/// Where an array lies; one that isn't there is a copy.
pub fn home_of(program: &ProgParts, array: u32) -> Home
    ensures { result ≡ home_of program.now array }
{
    match program.arrays.get(array as usize) {
        Some(a) => a.home,
        None => Home::Copy,
    }
}

fn extents(program: &ProgParts, array: u32) -> &[u32]
    ensures { result.now ≡ extents program.now array }
{
    match program.arrays.get(array as usize) {
        Some(a) => a.extents.as_slice(),
        None => &[],
    }
}

fn array_type(program: &ProgParts, array: u32) -> Ty
    ensures { result ≡ array_type program.now array }
{
    match program.arrays.get(array as usize) {
        Some(a) => a.ty,
        None => Ty::Int,
    }
}

fn scalar_type(program: &ProgParts, slot: u32) -> Ty
    ensures { result ≡ scalar_type program.now slot }
{
    match program.scalars.get(slot as usize) {
        Some(ty) => *ty,
        None => Ty::Int,
    }
}

/// The type of a side's cells.
pub fn type_of(program: &ProgParts, side: &MoveSide) -> Ty
    ensures { result ≡ type_of_side program.now side.now }
{
    match side {
        MoveSide::Scalar(name) => scalar_type(program, name.number),
        MoveSide::Array(name, _) => array_type(program, name.number),
    }
}

/// The words of a state that a side has.
pub fn place_of(side: &MoveSide) -> Place
    ensures { result ≡ place_of side.now }
{
    match side {
        MoveSide::Scalar(name) => Place::Scalar(name.number),
        MoveSide::Array(name, _) => Place::Row(name.number),
    }
}

// ---- sides

fn copied(alloc: Global, extents: &[u32]) -> Result<Items<u32>, NoMemory>
    ensures { IfOk result (λ all. all ≡ extents.now) }
{
    Items::from_slice(alloc, extents).map_err(|_| NoMemory)
}

/// An array, whose words on a node are numbered from 0.
pub fn side_of_array(
    alloc: Global,
    program: &ProgParts,
    array: u32,
    parts: Items<SidePart>,
) -> Result<Side, NoMemory>
    ensures { IfOk result (λ side. side ≡ side_of_array program.now array parts) }
{
    let extents = copied(alloc, extents(program, array))?;
    Ok(Side {
        home: home_of(program, array),
        extents,
        base: 0,
        parts,
    })
}

/// A scalar is a copy without dimensions.
fn side_of_scalar(alloc: Global) -> Side
    ensures { result ≡ scalar_side }
{
    Side {
        home: Home::Copy,
        extents: Items::new(alloc),
        base: 0,
        parts: Items::new(alloc),
    }
}

/// A subscript or a section.
fn part_of(part: &Part) -> SidePart
    ensures { result ≡ part_of part.now }
{
    match part {
        Part::One(_) => SidePart::One,
        Part::Many { .. } => SidePart::Many,
    }
}

fn push(all: &mut Items<SidePart>, part: SidePart) -> Result<(), NoMemory>
    ensures { OnOk result (all.new ≡ all.old ++ part ∷ []) }
{
    all.push(part).map_err(|_| NoMemory)
}

fn parts_of(alloc: Global, parts: &[Part]) -> Result<Items<SidePart>, NoMemory>
    ensures { IfOk result (λ all. all ≡ map part_of parts.now) }
{
    let mut all = Items::new(alloc);
    'parts: for part in parts {
        push(&mut all, part_of(part))?;
    }
    Ok(all)
}

/// A side of a gmove.
pub fn side_of(alloc: Global, program: &ProgParts, side: &MoveSide) -> Result<Side, NoMemory>
    ensures { IfOk result (λ made. made ≡ side_in program.now side.now) }
{
    match side {
        MoveSide::Scalar(_) => Ok(side_of_scalar(alloc)),
        MoveSide::Array(name, parts) => {
            let parts = parts_of(alloc, parts.as_slice())?;
            side_of_array(alloc, program, name.number, parts)
        }
    }
}
