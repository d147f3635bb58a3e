//! Units as texts.
use super::expressions::put_exprs;
use super::statements::{put_named, put_stmts};
use super::{Shown, kind_word};
use crate::{RawArray, RawItem, RawName, RawUnit};
use species_ast::Kind;

fn put_array(array: &RawArray<'_>, out: &mut Shown) {
    out.open_next();
    out.name(&array.name);
    put_exprs(array.sizes.as_slice(), out);
    out.close();
}

fn put_global(kind: Kind, arrays: &[RawArray<'_>], out: &mut Shown) {
    out.open(b"global ");
    out.put(kind_word(kind));
    for array in arrays {
        put_array(array, out);
    }
    out.put(b") ");
}

fn put_include(header: &RawName<'_>, out: &mut Shown) {
    put_named(b"include", header, out);
    out.put(b" ");
}

/// The items, each with a blank behind it, and then the function.
pub(in crate::tests) fn put_unit(unit: &RawUnit<'_>, out: &mut Shown) {
    for item in unit.items.as_slice() {
        match item {
            RawItem::Include(header) => put_include(header, out),
            RawItem::Global { kind, arrays } => put_global(*kind, arrays.as_slice(), out),
        }
    }
    out.open(b"void ");
    out.name(&unit.function);
    put_stmts(unit.body.as_slice(), out);
    out.close();
}
