//! The form of an expression at one level.

ghost use Rattle.std.specs.Prelude.{◌≡◌, ◌≤◌, ◌*◌, ◌*ℤ◌, pos, neg_ℤ, ℕ, Option, unsigned_abs};
ghost use Rattle.species_ast.specs.declared.tree.Expr.TheOpen.{Expr-F};
ghost use Rattle.species_ast.specs.Scope.Forms as text;
ghost use Rattle.species_affine.specs.Limited.{IsWithin};
ghost use Rattle.species_loops.specs.Lines.{IsLine, IsLineOf, HasFormNumbers};

use species_ast::{Binary, Expr, Unary, Value};

/// The greatest size of a number in a form.
const FORM_LIMIT: u64 = 2147483647;

/// The constant of a form, and its coefficient of one level.
#[derive(Clone, Copy)]
pub(crate) struct Line {
    pub(crate) constant: i64,
    pub(crate) slope: i64,
}

/// The constant of an expression that is affine, and its coefficient of a level. A number that is too
/// large for a form counts as 0, and so does a part that is not affine.
pub(crate) fn line_at(e: &Expr, level: u32) -> Line
    ensures value { IsLine result level (text.form_of e.now) }
    ensures small { HasFormNumbers result }
{
    match e {
        Expr::Literal(value) => of_literal(*value),
        Expr::Iter(at) => of_iterator(*at, level),
        Expr::Unary(op, a) => {
            let a = line_at(a.get(), level);
            of_unary(*op, a)
        }
        Expr::Binary(op, a, b) => {
            let a = line_at(a.get(), level);
            let b = line_at(b.get(), level);
            of_binary(*op, a, b)
        }
        Expr::Local(_) => constant(0),
        Expr::Elem(_, _) => constant(0),
        Expr::And(_, _) => constant(0),
        Expr::Or(_, _) => constant(0),
        Expr::Cond(_, _, _) => constant(0),
        Expr::Cast(_, _) => constant(0),
    }
}

/// A number as a form may have it.
fn limited(n: i64) -> i64
    ensures same { IsWithin n → result ≡ n }
    ensures small { IsWithin result }
{
    if n.unsigned_abs() <= FORM_LIMIT { n } else { 0 }
}

pub(crate) fn constant(n: i64) -> Line
    requires { IsWithin n }
    ensures constant { result.constant ≡ n }
    ensures slope { result.slope ≡ pos 0 }
{
    Line {
        constant: n,
        slope: 0,
    }
}

fn of_literal(value: Value) -> Line
    ensures value { (level : ℕ) → IsLine result level (text.form_step (Expr-F.Literal value)) }
    ensures small { HasFormNumbers result }
{
    match value {
        Value::Int(n) => constant(limited(i64::from(n))),
        Value::Unsigned(_) => constant(0),
        Value::Long(_) => constant(0),
        Value::UnsignedLong(_) => constant(0),
    }
}

fn of_iterator(at: u32, level: u32) -> Line
    ensures value { IsLineOf result level (text.iterator_form at) }
    ensures small { HasFormNumbers result }
{
    Line {
        constant: 0,
        slope: if at == level { 1 } else { 0 },
    }
}

fn of_unary(op: Unary, a: Line) -> Line
    requires { HasFormNumbers a }
    ensures value { (level : ℕ) (f : Option text.Form) → IsLine a level f → IsLine result level (text.form_step (Expr-F.Unary op f)) }
    ensures small { HasFormNumbers result }
{
    match op {
        Unary::Neg => negation(a),
        Unary::Not => constant(0),
        Unary::LogNot => constant(0),
    }
}

fn of_binary(op: Binary, a: Line, b: Line) -> Line
    requires left { HasFormNumbers a }
    requires right { HasFormNumbers b }
    ensures value { (level : ℕ) (f g : Option text.Form) → IsLine a level f → IsLine b level g → IsLine result level (text.form_step (Expr-F.Binary op f g)) }
    ensures small { HasFormNumbers result }
{
    match op {
        Binary::Add => sum(a, b),
        Binary::Sub => sum(a, negation(b)),
        Binary::Mul => product(a, b),
        Binary::Div => constant(0),
        Binary::Rem => constant(0),
        Binary::Shl => constant(0),
        Binary::Shr => constant(0),
        Binary::Lt => constant(0),
        Binary::Le => constant(0),
        Binary::Gt => constant(0),
        Binary::Ge => constant(0),
        Binary::Eq => constant(0),
        Binary::Ne => constant(0),
        Binary::BitAnd => constant(0),
        Binary::BitXor => constant(0),
        Binary::BitOr => constant(0),
    }
}

fn negation(a: Line) -> Line
    requires { HasFormNumbers a }
    ensures value { (level : ℕ) (f : text.Form) → IsLineOf a level f → IsLineOf result level (text.negated f) }
    ensures small { HasFormNumbers result }
{
    Line {
        constant: -a.constant,
        slope: -a.slope,
    }
}

fn sum(a: Line, b: Line) -> Line
    requires left { HasFormNumbers a }
    requires right { HasFormNumbers b }
    ensures value { (level : ℕ) (f g : text.Form) → IsLineOf a level f → IsLineOf b level g → IsLine result level (text.limited (text.sum_form f g)) }
    ensures small { HasFormNumbers result }
{
    Line {
        constant: limited(a.constant + b.constant),
        slope: limited(a.slope + b.slope),
    }
}

/// Of two lines of which one is constant.
fn product(a: Line, b: Line) -> Line
    requires left { HasFormNumbers a }
    requires right { HasFormNumbers b }
    ensures value { (level : ℕ) (f g : text.Form) → IsLineOf a level f → IsLineOf b level g → IsLine result level (text.product_form f g) }
    ensures small { HasFormNumbers result }
{
    Line {
        constant: limited(times(a.constant, b.constant)),
        slope: limited(times(a.constant, b.slope) + times(a.slope, b.constant)),
    }
}

fn times(n: i64, m: i64) -> i64
    requires left { IsWithin n }
    requires right { IsWithin m }
    ensures value { result ≡ n *ℤ m }
    ensures small { unsigned_abs result ≤ text.form_limit * text.form_limit }
{
    n * m
}
