//! Whole units with their texts.

use super::printed;
use super::trees::{arrays, assign, count, expr, header, line, number, only, set, unit};
use crate::print_front;
use species_ast::{Expr, Kind, Loop, Mark, OutOfMemory, Schedule, Stmt, Test, Unit, Value};
use sqlite_items::Items;
use std::alloc::Global;
use std::process::Abort;
use std::test::Fail;

static DOUBLING: &str = "int A[64];
int B[64];
void k(void) {
    for (int i = 0; i < 64; i++) {
        B[i] = 2 * A[i];
    }
}
";

static BLUR: &str = "#include <stdint.h>
int a[6][6];
int b[6][6];
void k(void) {
    #pragma species none -> none
    for (int i = 1; i < 6 - 1; i++) {
        for (int j = 1; j < 6 - 1; j++) {
            b[i][j] = (a[i][j - 1] + a[i][j] + a[i][j + 1]) / 3;
        }
    }
}
";

static SUM: &str = "int M[64][128];
int x[128];
void k(void) {
    for (int i = 0; i < 64; i++) {
        for (int j = 0; j < 128; j++) {
            a = a + M[i][j] * x[j];
        }
    }
}
";

static CHOICE: &str = "int h[10];
unsigned long long w[2];
void k(void) {
    for (int i = 9; i >= 0u; i -= 3) {
        if (i & 5) {
            h[i] = a * h[i] + b;
        } else {
            {
                unsigned b;
            }
        }
    }
    for (int j = 0; j > 8; j--) {
    }
    for (int j = 0; j <= 8; j += 2) {
    }
}
";

/// A loop that writes twice the elements of one array into another.
fn doubling(alloc: Global) -> Result<Unit, OutOfMemory> {
    let body = assign(alloc, 1, "i", "2iA*")?;
    let head = count(alloc, "i", 0, number(64), body);
    let rows = [
        ("A", Kind::Int, [64].as_slice()),
        ("B", Kind::Int, [64].as_slice()),
    ];
    Ok(unit(alloc, arrays(alloc, &rows), only(alloc, Stmt::For(head))))
}

/// The mean of three neighbours in a row, under a species line and a parallel mark.
fn blur_loop(alloc: Global) -> Result<Loop, OutOfMemory> {
    let body = assign(alloc, 1, "ij", "ij1-XijX+ij1+X+3/")?;
    let inner = count(alloc, "j", 1, expr(alloc, "61-")?, body);
    let rows = only(alloc, Stmt::For(inner));
    Ok(count(alloc, "i", 1, expr(alloc, "61-")?, rows))
}

fn marked(alloc: Global, mut head: Loop) -> Items<Stmt> {
    head.line = Some(line(alloc, "none -> none"));
    head.mark = Mark::Parallel {
        depth: 2,
        schedule: Schedule::StaticBy(64),
    };
    only(alloc, Stmt::For(head))
}

fn blur(alloc: Global) -> Result<Unit, OutOfMemory> {
    let body = marked(alloc, blur_loop(alloc)?);
    let rows = [
        ("a", Kind::Int, [6, 6].as_slice()),
        ("b", Kind::Int, [6, 6].as_slice()),
    ];
    let mut made = unit(alloc, arrays(alloc, &rows), body);
    made.includes = header(alloc);
    Ok(made)
}

/// A sum of products over the columns of a matrix, for each row.
fn sum(alloc: Global) -> Result<Unit, OutOfMemory> {
    let body = set(alloc, "aijXjB*+")?;
    let inner = only(alloc, Stmt::For(count(alloc, "j", 0, number(128), body)));
    let outer = count(alloc, "i", 0, number(64), inner);
    let rows = [
        ("M", Kind::Int, [64, 128].as_slice()),
        ("x", Kind::Int, [128].as_slice()),
    ];
    Ok(unit(alloc, arrays(alloc, &rows), only(alloc, Stmt::For(outer))))
}

/// A block in which a local is declared.
fn block(alloc: Global) -> Items<Stmt> {
    let declare = Stmt::Declare {
        place: 0,
        local: 1,
        init: None,
    };
    only(alloc, Stmt::Block(only(alloc, declare)))
}

/// An `if` that has both parts.
fn branches(alloc: Global) -> Result<Items<Stmt>, OutOfMemory> {
    let body = assign(alloc, 0, "i", "aiA*b+")?;
    let otherwise = block(alloc);
    let test = expr(alloc, "i5&")?;
    Ok(only(
        alloc,
        Stmt::If {
            place: 0,
            test,
            body,
            otherwise,
        },
    ))
}

fn stepped(mut head: Loop, test: Test, step: i32) -> Stmt {
    head.test = test;
    head.step = step;
    Stmt::For(head)
}

/// Loops with other tests and steps: one around the branches, and two that are empty.
fn loops(alloc: Global, branches: Items<Stmt>) -> Items<Stmt> {
    let zero = Expr::Literal(Value::Unsigned(0));
    let around = count(alloc, "i", 9, zero, branches);
    let mut all = only(alloc, stepped(around, Test::Ge, -3));
    for (test, step) in [(Test::Gt, -1), (Test::Le, 2)] {
        let empty = count(alloc, "j", 0, number(8), Items::new(alloc));
        let _ = all.push(stepped(empty, test, step));
    }
    all
}

fn choice(alloc: Global) -> Result<Unit, OutOfMemory> {
    let body = loops(alloc, branches(alloc)?);
    let rows = [
        ("h", Kind::Int, [10].as_slice()),
        ("w", Kind::UnsignedLong, [2].as_slice()),
    ];
    Ok(unit(alloc, arrays(alloc, &rows), body))
}

fn front(alloc: Global, made: &Unit) -> Result<Vec<u8>, OutOfMemory> {
    let mut text = Vec::new(alloc);
    print_front(alloc, made, &mut text)?;
    Ok(text)
}

/// Whether the unit, without its marks, is printed so, and its front as the first lines of it.
fn compare(
    rt: &impl Abort,
    alloc: Global,
    made: Result<Unit, OutOfMemory>,
    text: &str,
) -> Result<(), Fail> {
    let made = made?;
    let whole = String::from_utf8(printed(alloc, &made)?)?;
    let front = String::from_utf8(front(alloc, &made)?)?;
    assert_eq!(rt; whole.as_str(), text);
    assert!(rt; text.starts_with(front.as_str()), "the front of {text}");
    assert!(rt; front.ends_with("void k(void) {\n"), "the end of {front}");
    Ok(())
}

#[test]
fn kernels_are_printed_with_their_fronts(rt: HostRuntime) -> Result<(), Fail> {
    let alloc = rt.alloc();
    compare(&rt, alloc, doubling(alloc), DOUBLING)?;
    compare(&rt, alloc, blur(alloc), BLUR)?;
    compare(&rt, alloc, sum(alloc), SUM)?;
    compare(&rt, alloc, choice(alloc), CHOICE)
}
