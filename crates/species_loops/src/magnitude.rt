//! How large the parts of a bound may get.

ghost use Rattle.std.specs.Prelude.{◌≡◌, ◌≤◌, ◌+◌, ◌*◌, IfSome, List, unsigned_abs};
ghost use Rattle.species_ast.specs.declared.tree.Expr.TheOpen.{Expr-F};
ghost use Rattle.species_ast.specs.declared.tree.Loop.{out-Loop};
ghost use Rattle.species_ast.specs.Operators.{number_of};
ghost use Rattle.species_ast.specs.Scope.Hulls.{Range};
ghost use Rattle.species_ast.specs.Scope.Magnitudes as text;
ghost use Rattle.species_ast.specs.Scope.Magnitudes.{Magnitude, most_magnitude};
ghost use Rattle.species_loops.specs.Ranges.{ranges_seen};
ghost use Rattle.species_loops.specs.Sizes.{size_within, limited};

use species_ast::{Binary, Expr, Loop, Unary, Value};
use species_linear::LoopRange;

/// The greatest magnitude of a part of a bound.
const MOST_MAGNITUDE: u64 = 2147483647;

/// The magnitude of an expression, if neither it nor that of one of its parts is past the limit.
fn size(e: &Expr, path: &[LoopRange]) -> Option<u64>
    ensures value { result ≡ size_within (text.magnitude (ranges_seen path.now) e.now) }
    ensures small { IfSome result (λ n. n ≤ most_magnitude) }
{
    match e {
        Expr::Literal(value) => limited(size_of_literal(*value)),
        Expr::Iter(level) => limited(size_of_iterator(*level, path)),
        Expr::Unary(op, a) => {
            let a = size(a.get(), path);
            of_unary(*op, a)
        }
        Expr::Binary(op, a, b) => {
            let a = size(a.get(), path);
            let b = size(b.get(), path);
            of_binary(*op, a, b)
        }
        Expr::Local(_) => Some(0),
        Expr::Elem(_, _) => Some(0),
        Expr::And(_, _) => Some(0),
        Expr::Or(_, _) => Some(0),
        Expr::Cond(_, _, _) => Some(0),
        Expr::Cast(_, _) => Some(0),
    }
}

fn limited(n: u64) -> Option<u64>
    ensures value { result ≡ limited n }
    ensures small { IfSome result (λ n. n ≤ most_magnitude) }
{
    if n <= MOST_MAGNITUDE { Some(n) } else { None }
}

fn size_of_literal(value: Value) -> u64
    ensures { result ≡ unsigned_abs (number_of value) }
{
    match value {
        Value::Int(n) => u64::from(n.unsigned_abs()),
        Value::Unsigned(n) => u64::from(n),
        Value::Long(n) => n.unsigned_abs(),
        Value::UnsignedLong(n) => n,
    }
}

/// The greatest size of an end of an iterator's range.
fn size_of_iterator(level: u32, path: &[LoopRange]) -> u64
    ensures { result ≡ text.iterator_size (ranges_seen path.now) level }
{
    match path.get(level as usize) {
        Some(range) => range.low.unsigned_abs().max(range.high.unsigned_abs()),
        None => 0,
    }
}

fn of_unary(op: Unary, a: Option<u64>) -> Option<u64>
    requires { IfSome a (λ n. n ≤ most_magnitude) }
    ensures value { (path : List Range) (m : Magnitude) → a ≡ size_within m → result ≡ size_within (text.magnitude_at path (Expr-F.Unary op m)) }
    ensures small { IfSome result (λ n. n ≤ most_magnitude) }
{
    match op {
        Unary::Neg => a,
        Unary::Not => Some(0),
        Unary::LogNot => Some(0),
    }
}

fn of_binary(op: Binary, a: Option<u64>, b: Option<u64>) -> Option<u64>
    requires left { IfSome a (λ n. n ≤ most_magnitude) }
    requires right { IfSome b (λ n. n ≤ most_magnitude) }
    ensures value { (path : List Range) (m n : Magnitude) → a ≡ size_within m → b ≡ size_within n → result ≡ size_within (text.magnitude_at path (Expr-F.Binary op m n)) }
    ensures small { IfSome result (λ n. n ≤ most_magnitude) }
{
    match op {
        Binary::Add => sum(a, b),
        Binary::Sub => sum(a, b),
        Binary::Mul => product(a, b),
        Binary::Div => Some(0),
        Binary::Rem => Some(0),
        Binary::Shl => Some(0),
        Binary::Shr => Some(0),
        Binary::Lt => Some(0),
        Binary::Le => Some(0),
        Binary::Gt => Some(0),
        Binary::Ge => Some(0),
        Binary::Eq => Some(0),
        Binary::Ne => Some(0),
        Binary::BitAnd => Some(0),
        Binary::BitXor => Some(0),
        Binary::BitOr => Some(0),
    }
}

fn sum(a: Option<u64>, b: Option<u64>) -> Option<u64>
    requires left { IfSome a (λ n. n ≤ most_magnitude) }
    requires right { IfSome b (λ n. n ≤ most_magnitude) }
    ensures value { (m n : Magnitude) → a ≡ size_within m → b ≡ size_within n → result ≡ size_within (text.joined (m.size + n.size) m n) }
    ensures small { IfSome result (λ n. n ≤ most_magnitude) }
{
    let (Some(a), Some(b)) = (a, b) else {
        return None;
    };
    limited(a + b)
}

fn product(a: Option<u64>, b: Option<u64>) -> Option<u64>
    requires left { IfSome a (λ n. n ≤ most_magnitude) }
    requires right { IfSome b (λ n. n ≤ most_magnitude) }
    ensures value { (m n : Magnitude) → a ≡ size_within m → b ≡ size_within n → result ≡ size_within (text.joined (m.size * n.size) m n) }
    ensures small { IfSome result (λ n. n ≤ most_magnitude) }
{
    let (Some(a), Some(b)) = (a, b) else {
        return None;
    };
    limited(a * b)
}

/// Whether a part of a bound of a loop in loops with these ranges has too great a magnitude.
pub fn passes_bound(head: &Loop, path: &[LoopRange]) -> bool
    ensures { result ≡ text.passes_bound (ranges_seen path.now) (out-Loop head.now) }
{
    let start = size(&head.start, path);
    let limit = size(&head.limit, path);
    start.is_none() || limit.is_none()
}
