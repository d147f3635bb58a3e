//! Texts that are read, texts that are not, and what a line gives.

use crate::{GivenArc, GivenDim, Names, NotationRefusal, read_line};
use species_arcs::{Dir, Span};
use species_ast::Name;
use sqlite_items::Items;
use std::alloc::{AllocError, Global};
use std::test::Fail;

fn name_list(alloc: Global, words: &[&[u8]]) -> Result<Items<Name>, AllocError> {
    let mut names = Items::new(alloc);
    for word in words {
        names.push(Name::from_vec(Vec::from_slice(alloc, *word)?))?;
    }
    Ok(names)
}

fn some_names(alloc: Global) -> Result<Names, AllocError> {
    let arrays: [&[u8]; 3] = [b"A", b"B", b"none"];
    let iters: [&[u8]; 2] = [b"i", b"j"];
    Ok(Names {
        arrays: name_list(alloc, &arrays)?,
        iters: name_list(alloc, &iters)?,
        locals: Items::new(alloc),
    })
}

/// Why the text is not read, if it isn't.
fn refusal(alloc: Global, text: &[u8], names: &Names) -> Option<NotationRefusal> {
    match read_line(alloc, text, names) {
        Ok(_) => None,
        Err(refusal) => Some(refusal),
    }
}

#[test]
fn texts_of_lines_are_read(rt: HostRuntime) -> Result<(), Fail> {
    let names = some_names(rt.alloc())?;
    let texts: [&[u8]; 15] = [
        b"none[0:1]|element at (i) exact -> none",
        b"sequential[0:1]|element at (i) exact -> none",
        b"at[0:1]|element at (at) exact->none",
        b"A[- 1 : i - 2*j]|element at (i) exact -> none",
        b"A[1180591620717411303424-1+1:0]|element at (i) exact -> none",
        b"A[1180591620717411303424*k-k+k:0]|element at (i) exact -> none",
        b"A[1/**/:2]|full(0:0) at (i) exact -> none",
        b"A[0:1]|chunk(- 1 : 2) at (i) within -> none",
        b"A[0:1]|chunk(0:-0) at (i) exact -> none",
        b"A[0:1]|chunk(-3:-1:2) at (i) exact -> none",
        b"A[0:1]|element at (k-k) exact -> none",
        b"none\t->\tnone // y",
        b"A[0:1]|element at (i) exact ^ B[0:1]|element at (i) exact -> A[0:1]|shared(-) at (i) exact^A[0:1]|element at (i) exact",
        b"sequential carried A 1 2",
        b"sequential local/**/s",
    ];
    for text in texts {
        assert_eq!(rt; refusal(rt.alloc(), text, &names), None);
    }
    Ok(())
}

#[test]
fn other_texts_are_not_read(rt: HostRuntime) -> Result<(), Fail> {
    let names = some_names(rt.alloc())?;
    let texts: [&[u8]; 15] = [
        b"A[0:63]|neighbourhood(-1:1:3) at (i) within -> B[1:62]|element at (i) exact",
        b"int[0:1]|element at (i) exact -> none",
        b"A[01:2]|element at (i) exact -> none",
        b"A[i*2:1]|element at (i) exact -> none",
        b"A[1180591620717411303425:0]|element at (i) exact -> none",
        b"A[1180591620717411303424*i+i-i:0]|element at (i) exact -> none",
        b"A[1:2//x]|element at (i) exact -> none",
        b"A[0:1]|element(-) at (i) exact -> none",
        b"A[0:1]|neighbourhood(1:0) at (i) exact -> none",
        b"A[0:1]|chunk(0:4:0) at (i) exact -> none",
        b"A[0:1]|chunk(-,-) at (i) exact -> none",
        b"A[0:1]|element at (i+-1) exact -> none",
        b"none - > none",
        b"sequential carried A 1 -2",
        b"none /* x -> none",
    ];
    for text in texts {
        assert_eq!(rt;
            refusal(rt.alloc(), text, &names),
            Some(NotationRefusal::Syntax)
        );
    }
    Ok(())
}

/// Whether the dimension moves with the first iterator and has these offsets.
fn is_dim(dim: &GivenDim, offsets: Span) -> bool {
    let moves = match dim.at.terms.as_slice() {
        [term] => term.level == 0 && term.coefficient == 1 && dim.at.constant == 0,
        _ => false,
    };
    moves && has_offsets(dim, offsets)
}

fn has_offsets(dim: &GivenDim, offsets: Span) -> bool {
    dim.a == offsets.low && dim.b == offsets.high && dim.stride == offsets.stride
}

/// Whether the arc has one dimension, which moves with the first iterator.
fn is_arc(arc: &GivenArc, array: u32, dir: Dir, offsets: Span, exact: bool) -> bool {
    let as_said = arc.array == Some(array) && arc.dir == dir && arc.exact == exact && arc.known;
    match arc.dims.as_slice() {
        [dim] => as_said && is_dim(dim, offsets),
        _ => false,
    }
}

fn span(low: i128, high: i128, stride: u128) -> Span {
    Span { low, high, stride }
}

#[test]
fn a_line_gives_its_arcs(rt: HostRuntime) -> Result<(), Fail> {
    let names = some_names(rt.alloc())?;
    let rows: [(&[u8], Span, Span, bool); 3] = [
        (
            b"A[0:63]|neighbourhood(0:1) at (i) within -> B[1:62]|element at (i) exact",
            span(0, 1, 1),
            span(0, 0, 1),
            true,
        ),
        (
            b"A[0:63]|neighbourhood(-1:1:2) at (i) within -> B[1:62]|element at (i) exact",
            span(-1, 1, 2),
            span(0, 0, 1),
            true,
        ),
        (
            b"A[0:63]|neighbourhood(-1:8) at (i) within -> B[1:62]|chunk(0:7) at (i) within",
            span(-1, 8, 1),
            span(0, 7, 1),
            false,
        ),
    ];
    for (text, offsets, places, exact) in rows {
        match read_line(rt.alloc(), text, &names) {
            Ok(line) => match line.arcs.as_slice() {
                [read, written] => {
                    assert!(rt; is_arc(read, 0, Dir::Read, offsets, false));
                    assert!(rt; is_arc(written, 1, Dir::Write, places, exact));
                }
                _ => assert!(rt; false),
            },
            Err(_) => assert!(rt; false),
        }
    }
    Ok(())
}

#[test]
fn a_stride_is_that_of_its_dimension(rt: HostRuntime) -> Result<(), Fail> {
    let names = some_names(rt.alloc())?;
    let text = b"A[0:63,0:6]|chunk(-,0:6:2) at (i,0) exact -> B[0:63]|element at (i) exact";
    match read_line(rt.alloc(), text, &names) {
        Ok(line) => match line.arcs.as_slice() {
            [read, written] => {
                match read.dims.as_slice() {
                    [first, second] => {
                        assert!(rt; is_dim(first, span(0, 0, 1)));
                        assert!(rt;
                            second.at.constant == 0 && second.at.terms.as_slice().is_empty()
                        );
                        assert!(rt; has_offsets(second, span(0, 6, 2)));
                    }
                    _ => assert!(rt; false),
                }
                assert!(rt; is_arc(written, 1, Dir::Write, span(0, 0, 1), true));
            }
            _ => assert!(rt; false),
        },
        Err(_) => assert!(rt; false),
    }
    Ok(())
}
