// The steps of the walk: what each does to what is known, made and noted.
ghost use Rattle.std.specs.Prelude.{◌≡◌, None, false, is_some, map};
ghost use Rattle.xmp_names.specs.declared.rules.Rule.TheVariants.{N1, N3};
ghost use Rattle.xmp_names.specs.Walk.{Does, Gave, and_then, pure, first_place, a_nodes, a_scalar, a_template, an_array, an_int_scalar, close_scope, comes_before, constant, declare, declare_scalar, directive_at, finished, first_of_two, is_known, is_main, is_outermost, is_reserved, judge, meaning_of, name_of, new_slot, not_in_function, note, of_kind, open_scope, stands_outermost, typed, typed_call, typed_constant, typed_reference, value_of};

use crate::names::{Meaning, Region};
use crate::rules::{Broken, Notes, Rule, greater};
use crate::typed::{Operand, Typed, Value};
use crate::world::World;
use sqlite_items::Boxed;
use std::alloc::{AllocError, Global};
use std::mem::drop;
use xmp_base::Place;
use xmp_num::Ty;
use xmp_syntax::{Call, Expr, Name, Reference};

impl World {
    /// A rule breaks at a place unless the test holds.
    pub fn judge(&mut self, test: bool, rule: Rule, at: Place) -> Result<(), AllocError>
        ensures { Does (judge test rule at self.old) result self.new }
    {
        if !test {
            self.broken.push(Broken { rule, at })?;
        }
        Ok(())
    }

    /// What is noted of an expression is noted of the program.
    pub fn note(&mut self, notes: Notes) -> Result<(), AllocError>
        ensures { Does (note notes self.old) result self.new }
    {
        let Notes { deepest, broken } = notes;
        self.broken.append(broken)?;
        self.deepest = greater(self.deepest, deepest);
        Ok(())
    }

    pub fn finished(&mut self, typed: Typed) -> Result<Operand, AllocError>
        ensures { Does (finished typed self.old) result self.new }
    {
        let Typed { operand, notes } = typed;
        match self.note(notes) {
            Ok(()) => Ok(operand),
            Err(e) => {
                drop(operand);
                Err(e)
            }
        }
    }

    /// An expression where it stands.
    pub fn typed(&mut self, alloc: Global, e: &Expr) -> Result<Operand, AllocError>
        ensures { Does (typed e.now self.old) result self.new }
    {
        let typed = self.names.expression(alloc, e)?;
        self.finished(typed)
    }

    /// A variable or an element where it stands.
    pub fn typed_reference(
        &mut self,
        alloc: Global,
        r: &Reference<Boxed<Expr>>,
    ) -> Result<Operand, AllocError>
        ensures { Does (typed_reference r.now self.old) result self.new }
    {
        let typed = self.names.reference(alloc, r)?;
        self.finished(typed)
    }

    /// A call where it stands.
    pub fn typed_call(
        &mut self,
        alloc: Global,
        c: &Call<Boxed<Expr>>,
    ) -> Result<Operand, AllocError>
        ensures { Does (typed_call c.now self.old) result self.new }
    {
        let arguments = self.names.arguments(alloc, &c.arguments.item)?;
        let typed = self.names.call(alloc, &c.name, arguments)?;
        self.finished(typed)
    }

    /// An expression where it has to be constant.
    pub fn typed_constant(&mut self, alloc: Global, e: &Expr) -> Result<Operand, AllocError>
        ensures { Does (typed_constant e.now self.old) result self.new }
    {
        let typed = self.typed(alloc, e)?;
        match self.judge(is_known(typed.value), Rule::N4, first_place(e)) {
            Ok(()) => Ok(typed),
            Err(e) => {
                drop(typed);
                Err(e)
            }
        }
    }

    /// Its value; 0 where it isn't constant.
    pub fn constant(&mut self, alloc: Global, e: &Expr) -> Result<i64, AllocError>
        ensures { Does (constant e.now self.old) result self.new }
    {
        let typed = self.typed_constant(alloc, e)?;
        Ok(value_of(typed.value))
    }

    /// A scope opens, and closes again.
    pub fn open_scope(&mut self) -> Result<(), AllocError>
        ensures { Does (open_scope self.old) result self.new }
    {
        match self.names.scopes.open() {
            Ok(()) => Ok(()),
            Err(_) => Err(AllocError),
        }
    }

    pub fn close_scope(&mut self)
        ensures { close_scope self.old ≡ Gave tt self.new }
    {
        self.names.scopes.close();
    }

    /// Declares a name in the innermost scope.
    pub fn declare(
        &mut self,
        alloc: Global,
        name: &Name,
        meaning: Meaning,
    ) -> Result<(), AllocError>
        ensures { Does (declare name.now meaning self.old) result self.new }
    {
        let text = name.text.as_slice();
        let repeated = self.names.scopes.is_declared_here(text) || is_reserved(text);
        match self.names.scopes.declare(alloc, text, meaning) {
            Ok(_) => self.judge(!repeated, Rule::N2, name.at),
            Err(_) => Err(AllocError),
        }
    }

    // The next slot, for a scalar of a type.
    fn new_slot(&mut self, ty: Ty) -> Result<u32, AllocError>
        ensures { Does (new_slot ty self.old) result self.new }
    {
        let Ok(slot) = u32::try_from(self.scalars.len()) else {
            return Err(AllocError);
        };
        self.scalars.push(ty)?;
        Ok(slot)
    }

    /// A scalar takes the next slot, and is known from here on.
    pub fn declare_scalar(&mut self, alloc: Global, name: &Name, ty: Ty) -> Result<u32, AllocError>
        ensures { Does (declare_scalar name.now ty self.old) result self.new }
    {
        let slot = self.new_slot(ty)?;
        self.declare(alloc, name, Meaning::Scalar(slot, ty))?;
        Ok(slot)
    }

    /// What a name means where it stands.
    pub fn meaning_of(&mut self, name: &Name) -> Result<Option<Meaning>, AllocError>
        ensures { Does (meaning_of name.now self.old) result self.new }
    {
        let meaning = self.names.scopes.look_up(name.text.as_slice());
        let may = self.names.may_name(name, meaning);
        self.judge(may, Rule::N5, name.at)?;
        Ok(meaning)
    }

    // A name of a kind that is asked for, where it is of it.
    fn of_kind<T: Copy>(&mut self, name: &Name, found: Option<T>) -> Result<Option<T>, AllocError>
        ensures { Does (and_then (judge (is_some found) N3 name.now.at self.old) (λ _. pure found)) result self.new }
    {
        self.judge(found.is_some(), Rule::N3, name.at)?;
        Ok(found)
    }

    // A name that nothing declares.
    fn undeclared<T: Copy>(&mut self, name: &Name) -> Result<Option<T>, AllocError>
        ensures { Does (and_then (judge false N1 name.now.at self.old) (λ _. pure None)) result self.new }
    {
        self.judge(false, Rule::N1, name.at)?;
        Ok(None)
    }

    /// A scalar by its name: its slot and its type.
    pub fn scalar_of(&mut self, name: &Name) -> Result<Option<(u32, Ty)>, AllocError>
        ensures { Does (name_of a_scalar name.now self.old) result self.new }
    {
        match self.meaning_of(name)? {
            Some(meaning) => self.of_kind(name, a_scalar(meaning)),
            None => self.undeclared(name),
        }
    }

    /// An int scalar by its name: its slot.
    pub fn index_of(&mut self, name: &Name) -> Result<Option<u32>, AllocError>
        ensures { Does (name_of an_int_scalar name.now self.old) result self.new }
    {
        match self.meaning_of(name)? {
            Some(meaning) => self.of_kind(name, an_int_scalar(meaning)),
            None => self.undeclared(name),
        }
    }

    /// An array by its name: its number.
    pub fn array_of(&mut self, name: &Name) -> Result<Option<u32>, AllocError>
        ensures { Does (name_of an_array name.now self.old) result self.new }
    {
        match self.meaning_of(name)? {
            Some(meaning) => self.of_kind(name, an_array(meaning)),
            None => self.undeclared(name),
        }
    }

    /// A nodes array by its name: its number.
    pub fn nodes_array_of(&mut self, name: &Name) -> Result<Option<u32>, AllocError>
        ensures { Does (name_of a_nodes name.now self.old) result self.new }
    {
        match self.meaning_of(name)? {
            Some(meaning) => self.of_kind(name, a_nodes(meaning)),
            None => self.undeclared(name),
        }
    }

    /// A template by its name: its number.
    pub fn template_of(&mut self, name: &Name) -> Result<Option<u32>, AllocError>
        ensures { Does (name_of a_template name.now self.old) result self.new }
    {
        match self.meaning_of(name)? {
            Some(meaning) => self.of_kind(name, a_template(meaning)),
            None => self.undeclared(name),
        }
    }

    /// The word of a directive.
    pub fn directive_at(&mut self, at: Place) -> Result<(), AllocError>
        ensures { Does (directive_at at self.old) result self.new }
    {
        let outside = self.names.region != Region::Function;
        self.mappings.first_directive = first_of_two(self.mappings.first_directive, at);
        self.judge(outside, Rule::N5, at)
    }

    /// What no function but main has.
    pub fn not_in_function(&mut self, at: Place) -> Result<(), AllocError>
        ensures { Does (not_in_function at self.old) result self.new }
    {
        let outside = self.names.region != Region::Function;
        self.judge(outside, Rule::N5, at)
    }

    /// What stands only at file scope or directly in main's body.
    pub fn stands_outermost(&mut self, at: Place) -> Result<(), AllocError>
        ensures { Does (stands_outermost at self.old) result self.new }
    {
        let outermost = self.is_outermost();
        self.judge(outermost, Rule::N8, at)
    }

    fn is_outermost(&self) -> bool
        ensures { result ≡ is_outermost self.now }
    {
        let depth = self.names.scopes.depth();
        depth < 2 || (is_main(self.names.region) && depth == 2)
    }
}

// Whether a place stands before another.
fn comes_before(a: Place, b: Place) -> bool
    ensures { result ≡ comes_before a b }
{
    a.line < b.line || (a.line == b.line && a.column < b.column)
}

fn first_of_two(first: Option<Place>, at: Place) -> Option<Place>
    ensures { result ≡ first_of_two first at }
{
    match first {
        Some(first) => {
            if comes_before(at, first) {
                Some(at)
            } else {
                Some(first)
            }
        }
        None => Some(at),
    }
}

pub fn is_main(region: Region) -> bool
    ensures { result ≡ is_main region }
{
    match region {
        Region::Main => true,
        _ => false,
    }
}

fn is_reserved(name: &[u8]) -> bool
    ensures { result ≡ is_reserved name.now }
{
    name == b"xmp_node_num".as_slice() || name == b"xmp_num_nodes".as_slice()
}

/// Whether a value is known.
pub fn is_known(value: Value) -> bool
    ensures { result ≡ is_known value }
{
    match value {
        Value::Known(_) => true,
        _ => false,
    }
}

/// A value that is known, and 0 where none is.
pub fn value_of(value: Value) -> i64
    ensures { result ≡ value_of value }
{
    match value {
        Value::Known(v) => v,
        _ => 0,
    }
}

fn a_scalar(meaning: Meaning) -> Option<(u32, Ty)>
    ensures { result ≡ a_scalar meaning }
{
    match meaning {
        Meaning::Scalar(slot, ty) => Some((slot, ty)),
        _ => None,
    }
}

fn an_int_scalar(meaning: Meaning) -> Option<u32>
    ensures { result ≡ an_int_scalar meaning }
{
    match meaning {
        Meaning::Scalar(slot, Ty::Int) => Some(slot),
        _ => None,
    }
}

fn an_array(meaning: Meaning) -> Option<u32>
    ensures { result ≡ an_array meaning }
{
    match meaning {
        Meaning::Array(number) => Some(number),
        _ => None,
    }
}

fn a_nodes(meaning: Meaning) -> Option<u32>
    ensures { result ≡ a_nodes meaning }
{
    match meaning {
        Meaning::Nodes(number) => Some(number),
        _ => None,
    }
}

fn a_template(meaning: Meaning) -> Option<u32>
    ensures { result ≡ a_template meaning }
{
    match meaning {
        Meaning::Template(number) => Some(number),
        _ => None,
    }
}

/// The place of an expression's first token.
#[cycle(first)]
pub fn first_place(e: &Expr) -> Place
    ensures { result ≡ first_place e.now }
{
    match e {
        Expr::Number(at, _, _) => *at,
        Expr::Read(r) => r.name.at,
        Expr::Call(c) => c.name.at,
        Expr::Parens(x) => x.open,
        Expr::Unary(op, _) => op.at,
        Expr::Cast(ty, _) => ty.open,
        Expr::Chain(first, _) => first_place(first.get()),
        Expr::Conditional(test, _, _, _, _) => first_place(test.get()),
    }
}
