// Classes of marks.
ghost use Rattle.std.specs.Prelude.{◌≡◌};
ghost use Rattle.xmp_lex.specs.declared.token.TokenKind.TheVariants as t;
ghost use Rattle.xmp_syntax.specs.Grammar.{mark_binds, is_assign_mark};
ghost use Rattle.xmp_reader.specs.Classes.{of_class};

use xmp_lex::Mark;

#[derive(Clone, Copy, Debug, PartialEq, Eq)]
pub enum Class {
    /// the binary operators of a level, 1 for `* / %` to 10 for `||`
    Binary(u32),
    Unary,
    Assign,
    /// `++` and `--`
    Step,
    /// `+` and `-` of a point
    Offset,
    /// the operators of a reduction
    Reduction,
}

/// How loosely a binary operator binds, 1 to 10; 0 for what is none.
pub fn binds(mark: Mark) -> u32
    ensures { result ≡ mark_binds mark }
{
    match mark {
        Mark::Star | Mark::Slash | Mark::Percent => 1,
        Mark::Plus | Mark::Minus => 2,
        Mark::ShiftLeft | Mark::ShiftRight => 3,
        Mark::Less | Mark::LessEqual | Mark::Greater | Mark::GreaterEqual => 4,
        Mark::Equal | Mark::Differ => 5,
        Mark::And => 6,
        Mark::Xor => 7,
        Mark::Or => 8,
        Mark::AndAnd => 9,
        Mark::OrOr => 10,
        _ => 0,
    }
}

fn assigns(mark: Mark) -> bool
    ensures { result ≡ is_assign_mark mark }
{
    matches!(
        mark,
        Mark::Assign
            | Mark::AddAssign
            | Mark::SubAssign
            | Mark::MulAssign
            | Mark::DivAssign
            | Mark::RemAssign
            | Mark::ShlAssign
            | Mark::ShrAssign
            | Mark::AndAssign
            | Mark::OrAssign
            | Mark::XorAssign
    )
}

/// Whether the class has the mark.
pub fn has(class: Class, mark: Mark) -> bool
    ensures { result ≡ of_class class (t.Mark mark) }
{
    match class {
        Class::Binary(level) => binds(mark) == level,
        Class::Unary => matches!(mark, Mark::Plus | Mark::Minus | Mark::Tilde | Mark::Bang),
        Class::Assign => assigns(mark),
        Class::Step => matches!(mark, Mark::Increment | Mark::Decrement),
        Class::Offset => matches!(mark, Mark::Plus | Mark::Minus),
        Class::Reduction => matches!(
            mark,
            Mark::Plus | Mark::Star | Mark::And | Mark::Or | Mark::Xor
        ),
    }
}
