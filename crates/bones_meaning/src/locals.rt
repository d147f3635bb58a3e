//! The locals that an iteration declares.
ghost use Rattle.std.specs.Prelude.{◌≡◌, nat_eq};
ghost use Rattle.std.specs.List.{list_any};
ghost use Rattle.species_ast.specs.Run.{locals_of, locals_in};

use species_ast::Stmt;

/// Whether one of these statements declares a local, at any depth.
#[cycle(declares)]
pub(crate) fn declares(all: &[Stmt], x: u32) -> bool
    ensures { result ≡ list_any (nat_eq x) (locals_in all.now) }
{
    for s in all {
        if declares_one(s, x) {
            return true;
        }
    }
    false
}

#[cycle(declares)]
fn declares_one(s: &Stmt, x: u32) -> bool
    ensures { result ≡ list_any (nat_eq x) (locals_of s.now) }
{
    match s {
        Stmt::Assign { .. } => false,
        Stmt::AddTo { .. } => false,
        Stmt::Declare {
            place: _,
            local,
            init: _,
        } => x == *local,
        Stmt::SetLocal { .. } => false,
        Stmt::If {
            place: _,
            test: _,
            body,
            otherwise,
        } => {
            if declares(body.as_slice(), x) {
                true
            } else {
                declares(otherwise.as_slice(), x)
            }
        }
        Stmt::For(head) => declares(head.body.as_slice(), x),
        Stmt::Block(body) => declares(body.as_slice(), x),
    }
}
