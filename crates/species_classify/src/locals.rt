//! The first local of the outside that a nest sets.

ghost use Rattle.std.specs.Prelude.{◌≡◌, [], ◌∷◌, slice_get};
ghost use Rattle.species_ast.specs.Run.{locals_of, locals_in};
ghost use Rattle.species_ast.specs.Scope.Meanings.{is_among};
ghost use Rattle.species_runs.specs.Scopes.{sets_of, sets_in, without, outer_locals_set};

use species_ast::Stmt;

/// Whether one of these statements declares a local, at any depth.
#[cycle(declares)]
fn declares(all: &[Stmt], local: u32) -> bool
    ensures { result ≡ is_among (locals_in all.now) local }
{
    for s in all {
        if declares_it(s, local) {
            return true;
        }
    }
    false
}

#[cycle(declares)]
fn declares_it(s: &Stmt, local: u32) -> bool
    ensures { result ≡ is_among (locals_of s.now) local }
{
    match s {
        Stmt::Assign { .. } => false,
        Stmt::AddTo { .. } => false,
        Stmt::Declare {
            place: _,
            local: declared,
            init: _,
        } => local == *declared,
        Stmt::SetLocal { .. } => false,
        Stmt::If {
            place: _,
            test: _,
            body,
            otherwise,
        } => {
            if declares(body.as_slice(), local) {
                true
            } else {
                declares(otherwise.as_slice(), local)
            }
        }
        Stmt::For(head) => declares(head.body.as_slice(), local),
        Stmt::Block(body) => declares(body.as_slice(), local),
    }
}

fn unless_declared(local: u32, body: &[Stmt]) -> Option<u32>
    ensures { result ≡ slice_get (without (local ∷ []) (locals_in body.now)) 0 }
{
    if declares(body, local) {
        None
    } else {
        Some(local)
    }
}

/// The first local that one of these statements sets and the body does not declare.
#[cycle(sets)]
fn first_set(all: &[Stmt], body: &[Stmt]) -> Option<u32>
    ensures { result ≡ slice_get (without (sets_in all.now) (locals_in body.now)) 0 }
{
    for s in all {
        if let Some(local) = first_set_in(s, body) {
            return Some(local);
        }
    }
    None
}

#[cycle(sets)]
fn first_set_in(s: &Stmt, body: &[Stmt]) -> Option<u32>
    ensures { result ≡ slice_get (without (sets_of s.now) (locals_in body.now)) 0 }
{
    match s {
        Stmt::Assign { .. } => None,
        Stmt::AddTo { .. } => None,
        Stmt::Declare { .. } => None,
        Stmt::SetLocal {
            place: _,
            local,
            value: _,
        } => unless_declared(*local, body),
        Stmt::If {
            place: _,
            test: _,
            body: first,
            otherwise,
        } => match first_set(first.as_slice(), body) {
            Some(local) => Some(local),
            None => first_set(otherwise.as_slice(), body),
        },
        Stmt::For(head) => first_set(head.body.as_slice(), body),
        Stmt::Block(inner) => first_set(inner.as_slice(), body),
    }
}

/// The first local, in the order of the text, that these statements set and do not declare.
pub(crate) fn first_outer_local(body: &[Stmt]) -> Option<u32>
    ensures { result ≡ slice_get (outer_locals_set body.now) 0 }
{
    first_set(body, body)
}
