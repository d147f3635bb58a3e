//! The references of nests, with ample memory.

ghost use Rattle.std.specs.Prelude.{◌≡◌, pos, true, Some, [], ◌∷◌, length, IfOk};
ghost use Rattle.species_ast.specs.Scope.References.{references_of};
ghost use Rattle.species_references.specs.Ranges.{ranges_in_loop};
ghost use Rattle.species_references.specs.References.{adds_of};

use super::trees::{Sizes, unit};
use crate::nest::resolved;
use crate::occurrences::add_loop;
use crate::{Reference, references};
use species_affine::Subscript;
use species_arcs::{Dir, Span};
use species_ast::{Expr, Loop, Mark, Name, OutOfMemory, Stmt, Test, Unit, Value};
use species_linear::{LoopRange, Ranges};
use sqlite_items::Items;
use std::alloc::Global;
use std::process::Abort;
use std::test::Fail;

/// A range: its ends, its step, and whether its start is a constant.
type Hull = (i64, i64, i32, bool);

fn ranges(alloc: Global, hulls: &[Hull]) -> Result<Vec<LoopRange>, OutOfMemory> {
    let mut all = Vec::new(alloc);
    for (low, high, step, constant) in hulls {
        all.push(LoopRange {
            low: *low,
            high: *high,
            step: *step,
            start: if *constant { Some(*low) } else { None },
            fixed: true,
        })?;
    }
    Ok(all)
}

/// A nest: the sizes of the arrays, its code, the ranges of the loops around it and of its own, the
/// size of its band, the arrays to which a `+=` is an add, and its references. Of a reference come its
/// direction, its array, for each subscript the form and the box, and `?` where it is conditional.
struct Nest {
    sizes: Sizes,
    codes: &'static str,
    around: &'static [Hull],
    ranges: &'static [Hull],
    depth: u32,
    gathered: &'static [u32],
    want: &'static str,
}

static PRODUCTS: [Nest; 4] = [
    // a row times a vector, summed up in a local
    Nest {
        sizes: &[&[64, 128], &[128], &[64]],
        codes: "0 64 0 L0 128 sijAjB*+L1FisU3F",
        around: &[],
        ranges: &[(0, 63, 1, true), (0, 127, 1, true)],
        depth: 1,
        gathered: &[],
        want: "read A[0+1i 0:0:1][0+1j 0:127:1], read B[0+1j 0:127:1], write C[0+1i 0:0:1]",
    },
    // a product of matrices
    Nest {
        sizes: &[&[64, 64], &[64, 64], &[64, 64]],
        codes: "0 64 0 64 ij0 S0 64 ijikBkjC*P1F2F1F",
        around: &[],
        ranges: &[(0, 63, 1, true), (0, 63, 1, true), (0, 63, 1, true)],
        depth: 2,
        gathered: &[],
        want: "write A[0+1i 0:0:1][0+1j 0:0:1], read A[0+1i 0:0:1][0+1j 0:0:1], \
read B[0+1i 0:0:1][0+1k 0:63:1], read C[0+1k 0:63:1][0+1j 0:0:1], write A[0+1i 0:0:1][0+1j 0:0:1]",
    },
    // five points
    Nest {
        sizes: &[&[64, 64], &[64, 64]],
        codes: "1 63 1 63 ijijAi1 -jA+i1 +jA+ij1 -A+ij1 +A+T1F1F",
        around: &[],
        ranges: &[(1, 62, 1, true), (1, 62, 1, true)],
        depth: 2,
        gathered: &[],
        want: "read A[0+1i 0:0:1][0+1j 0:0:1], read A[-1+1i -1:-1:1][0+1j 0:0:1], \
read A[1+1i 1:1:1][0+1j 0:0:1], read A[0+1i 0:0:1][-1+1j -1:-1:1], \
read A[0+1i 0:0:1][1+1j 1:1:1], write B[0+1i 0:0:1][0+1j 0:0:1]",
    },
    // a triangle
    Nest {
        sizes: &[&[64, 64]],
        codes: "0 64 i64 ij1 S1F1F",
        around: &[],
        ranges: &[(0, 63, 1, true), (0, 63, 1, false)],
        depth: 1,
        gathered: &[],
        want: "write A[0+1i 0:0:1][0+1j 0:63:1]",
    },
];

static SUMS: [Nest; 4] = [
    Nest {
        sizes: &[&[1], &[64]],
        codes: "0 64 0 iBP1F",
        around: &[],
        ranges: &[(0, 63, 1, true)],
        depth: 1,
        gathered: &[],
        want: "read A[0 0:0:1], read B[0+1i 0:0:1], write A[0 0:0:1]",
    },
    Nest {
        sizes: &[&[1], &[64]],
        codes: "0 64 0 iBP1F",
        around: &[],
        ranges: &[(0, 63, 1, true)],
        depth: 1,
        gathered: &[0],
        want: "read B[0+1i 0:0:1], add A[0 0:0:1]",
    },
    Nest {
        sizes: &[&[1], &[64], &[64]],
        codes: "0 64 0 iBPi0 AU2F",
        around: &[],
        ranges: &[(0, 63, 1, true)],
        depth: 1,
        gathered: &[],
        want: "read A[0 0:0:1], read B[0+1i 0:0:1], write A[0 0:0:1], read A[0 0:0:1], write C[0+1i 0:0:1]",
    },
    // subscripts that are not affine: of a whole dimension
    Nest {
        sizes: &[&[64], &[64]],
        codes: "0 8 iBii*AP1F",
        around: &[],
        ranges: &[(0, 7, 1, true)],
        depth: 1,
        gathered: &[],
        want: "read B[0+1i 0:0:1], read A[other 0:63:1], read A[other 0:63:1], write A[other 0:63:1]",
    },
];

static LOOPS: [Nest; 7] = [
    // two loops in a loop
    Nest {
        sizes: &[&[64], &[64]],
        codes: "0 10 1 63 jj1 -Aj1 +A+T1F1 63 jjBS1F2F",
        around: &[],
        ranges: &[(0, 9, 1, true), (1, 62, 1, true), (1, 62, 1, true)],
        depth: 1,
        gathered: &[],
        want: "read A[-1+1j 0:61:1], read A[1+1j 2:63:1], write B[0+1j 1:62:1], read B[0+1j 1:62:1], write A[0+1j 1:62:1]",
    },
    // a row from the row before, and the inner nest of it
    Nest {
        sizes: &[&[10, 64]],
        codes: "1 10 0 64 iji1 -jAS1F1F",
        around: &[],
        ranges: &[(1, 9, 1, true), (0, 63, 1, true)],
        depth: 1,
        gathered: &[],
        want: "read A[-1+1i -1:-1:1][0+1j 0:63:1], write A[0+1i 0:0:1][0+1j 0:63:1]",
    },
    Nest {
        sizes: &[&[10, 64]],
        codes: "0 64 iji1 -jAS1F",
        around: &[(1, 9, 1, true)],
        ranges: &[(0, 63, 1, true)],
        depth: 1,
        gathered: &[],
        want: "read A[-1+1i -1:-1:1][0+1j 0:0:1], write A[0+1i 0:0:1][0+1j 0:0:1]",
    },
    // strides: the coefficient times the step
    Nest {
        sizes: &[&[100], &[200]],
        codes: "0 64 0 20 i2 j*+170 j9 *-BS1G1F",
        around: &[],
        ranges: &[(0, 63, 1, true), (0, 18, 3, true)],
        depth: 1,
        gathered: &[],
        want: "read B[170+-9j 8:170:27], write A[0+1i+2j 0:36:6]",
    },
    // two strides, of which that of a moving start has no step
    Nest {
        sizes: &[&[400], &[400]],
        codes: "0 64 i64 0 10 4 j*6 k*+1 S6 k*1 T2G1G1F",
        around: &[],
        ranges: &[(0, 63, 1, true), (0, 63, 3, false), (0, 9, 3, true)],
        depth: 1,
        gathered: &[],
        want: "write A[0+4j+6k 0:306:2], write B[0+6k 0:54:18]",
    },
    // an inner loop that has no turn, and a band that has none
    Nest {
        sizes: &[&[64], &[64]],
        codes: "0 64 0 0 j1 S1FiiAT2F",
        around: &[],
        ranges: &[(0, 63, 1, true), (0, -1, 1, true)],
        depth: 1,
        gathered: &[],
        want: "read A[0+1i 0:0:1], write B[0+1i 0:0:1]",
    },
    Nest {
        sizes: &[&[4]],
        codes: "0 0 0 5 S1F",
        around: &[],
        ranges: &[(0, -1, 1, true)],
        depth: 1,
        gathered: &[],
        want: "write A[0 0:0:1]",
    },
];

static CONDITIONS: [Nest; 2] = [
    // branches
    Nest {
        sizes: &[&[64], &[64]],
        codes: "0 64 iAii1 +ATii2 +AT2JiAL2F",
        around: &[],
        ranges: &[(0, 63, 1, true)],
        depth: 1,
        gathered: &[],
        want: "read A[0+1i 0:0:1], read A[1+1i 1:1:1]?, write B[0+1i 0:0:1]?, \
read A[2+1i 2:2:1]?, write B[0+1i 0:0:1]?, read A[0+1i 0:0:1]",
    },
    // `&&`, `||` and `?:`
    Nest {
        sizes: &[&[64], &[64]],
        codes: "0 64 iAiB&LiAiB|LiAi1 +AiB?L3F",
        around: &[],
        ranges: &[(0, 63, 1, true)],
        depth: 1,
        gathered: &[],
        want: "read A[0+1i 0:0:1], read B[0+1i 0:0:1]?, read A[0+1i 0:0:1], read B[0+1i 0:0:1]?, \
read A[0+1i 0:0:1], read A[1+1i 1:1:1]?, read B[0+1i 0:0:1]?",
    },
];

/// The references of a nest, as the crate finds them.
fn found(
    alloc: Global,
    unit: &Unit,
    head: &Loop,
    nest: &Nest,
) -> Result<Vec<Reference>, OutOfMemory> {
    let around = ranges(alloc, nest.around)?;
    let own = ranges(alloc, nest.ranges)?;
    let mut occurrences = Vec::new(alloc);
    add_loop(
        alloc,
        head,
        around.as_slice(),
        false,
        nest.depth,
        nest.gathered,
        own.as_slice(),
        &mut occurrences,
    )?;
    if occurrences.len() > 100 {
        return Err(OutOfMemory);
    }
    let inner = nest.around.len() + nest.depth as usize;
    resolved(alloc, unit, inner, occurrences.as_slice())
}

fn put_subscript(out: &mut String, sub: &Subscript) -> Result<(), OutOfMemory> {
    match sub {
        Subscript::Other => write!(out, "other")?,
        Subscript::Affine(form) => {
            write!(out, "{}", form.constant)?;
            for term in form.terms.as_slice() {
                let name = ["i", "j", "k"][term.level as usize % 3];
                write!(out, "+{}{}", term.coefficient, name)?;
            }
        }
    }
    Ok(())
}

fn put_span(out: &mut String, span: Option<&Span>) -> Result<(), OutOfMemory> {
    if let Some(span) = span {
        write!(out, " {}:{}:{}", span.low, span.high, span.stride)?;
    }
    Ok(())
}

fn put_reference(out: &mut String, reference: &Reference) -> Result<(), OutOfMemory> {
    let dir = match reference.dir {
        Dir::Read => "read",
        Dir::Write => "write",
        Dir::Add => "add",
    };
    let array = ["A", "B", "C"][reference.array as usize % 3];
    write!(out, "{dir} {array}")?;
    for (dimension, sub) in reference.subs.as_slice().iter().enumerate() {
        write!(out, "[")?;
        put_subscript(out, sub)?;
        put_span(out, reference.boxes.as_slice().get(dimension))?;
        write!(out, "]")?;
    }
    if reference.conditional {
        write!(out, "?")?;
    }
    Ok(())
}

fn text_of(alloc: Global, found: &[Reference]) -> Result<String, OutOfMemory> {
    let mut out = String::new(alloc);
    for reference in found {
        if reference.number > 0 {
            write!(out, ", ")?;
        }
        put_reference(&mut out, reference)?;
    }
    Ok(out)
}

/// The text of the references of a nest.
fn shown(alloc: Global, nest: &Nest) -> Result<String, OutOfMemory> {
    let unit = unit(alloc, nest.sizes, nest.codes)?;
    match unit.body.as_slice() {
        [Stmt::For(head)] => {
            let found = found(alloc, &unit, head, nest)?;
            text_of(alloc, found.as_slice())
        }
        _ => Err(OutOfMemory),
    }
}

fn compare(rt: &impl Abort, alloc: Global, nests: &[Nest]) -> Result<(), Fail> {
    for nest in nests {
        let text = shown(alloc, nest)?;
        assert_eq!(rt; text.as_str(), nest.want);
    }
    Ok(())
}

#[test]
fn references_of_nests(rt: HostRuntime) -> Result<(), Fail> {
    compare(&rt, rt.alloc(), &PRODUCTS)?;
    compare(&rt, rt.alloc(), &SUMS)?;
    compare(&rt, rt.alloc(), &LOOPS)?;
    compare(&rt, rt.alloc(), &CONDITIONS)
}

/// `for (int i = 0; i < 64; i++) A[i] = 5;`
fn fives(alloc: Global) -> Result<Loop, OutOfMemory>
    ensures range { IfOk result (λ l. ranges_in_loop l [] ≡ record { low = pos 0; high = pos 63; step = pos 1; start = Some (pos 0); fixed = true } ∷ []) }
    ensures one { IfOk result (λ l. length (references_of (adds_of []) l [] [] 1) ≡ 1) }
{
    let mut subs = Items::new(alloc);
    subs.push(Expr::Iter(0))?;
    let mut body = Items::new(alloc);
    body.push(Stmt::Assign {
        place: 0,
        array: 0,
        subs,
        value: Expr::Literal(Value::Int(5)),
    })?;
    Ok(Loop {
        place: 0,
        iter: Name::from_vec(Vec::new(alloc)),
        start: Expr::Literal(Value::Int(0)),
        test: Test::Lt,
        limit: Expr::Literal(Value::Int(64)),
        step: 1,
        body,
        line: None,
        mark: Mark::Plain,
    })
}

fn direct(alloc: Global) -> Result<String, OutOfMemory> {
    let unit = unit(alloc, &[&[64]], "")?;
    let mut ranges = Ranges::new(alloc);
    ranges.push(LoopRange {
        low: 0,
        high: 63,
        step: 1,
        start: Some(0),
        fixed: true,
    })?;
    let head = fives(alloc)?;
    let found = references(alloc, &unit, &head, &[], &ranges, 1, &[])?;
    text_of(alloc, found.as_slice())
}

#[test]
fn references_of_a_loop(rt: HostRuntime) -> Result<(), Fail> {
    let text = direct(rt.alloc())?;
    assert_eq!(rt; text.as_str(), "write A[0+1i 0:0:1]");
    Ok(())
}
