//! Worked programs with the lines of their plans.

ghost use Rattle.std.specs.Prelude.{IfOk};
ghost use Rattle.species_ast.specs.Marks.{IsUnmarked};
ghost use Rattle.species_ast.specs.Scope.WellMade.{IsWellMade};

use crate::annotate;
use species_ast::{MOST_BYTES, OutOfMemory, Unit};
use species_print::print;
use species_reading::{ProgramRefusal, read_program};
use std::alloc::Global;
use std::test::Fail;

/// What a text is read as; one past the limit is not tried.
fn read(alloc: Global, text: &[u8]) -> Result<Unit, ProgramRefusal>
    ensures { IfOk result IsWellMade }
{
    if text.len() > MOST_BYTES as usize {
        return Err(ProgramRefusal::Memory);
    }
    read_program(alloc, text)
}

/// The species lines of the program of a text, each behind its indentation.
fn lines_of(alloc: Global, text: &[u8]) -> Result<Vec<u8>, Fail> {
    let unit = read(alloc, text)?;
    let lined = annotate(alloc, &unit)?;
    let text = print(alloc, &lined)?;
    Ok(lines(alloc, text.as_slice())?)
}

/// The lines of a text that begin with `#`.
fn lines(alloc: Global, text: &[u8]) -> Result<Vec<u8>, OutOfMemory> {
    let mut found = Vec::new(alloc);
    let mut kept = false;
    let mut start = true;
    for byte in text {
        if start && *byte != b' ' {
            kept = *byte == b'#';
            start = false;
        }
        if kept {
            found.push(*byte)?;
        }
        if *byte == b'\n' {
            start = true;
            kept = false;
        }
    }
    Ok(found)
}

#[test]
fn plain_plans(rt: HostRuntime) -> Result<(), Fail> {
    let rows: [(&[u8], &[u8]); 12] = [
        (
            b"int A[64]; void f(void) { for (int i = 1; i < 64; i++) A[i] = A[i - 1]; }",
            b"#pragma species sequential carried A 0 1\n",
        ),
        (
            b"int A[128]; void f(void) { for (int i = 0; i < 64; i++) A[2 * i] = A[2 * i + 1]; }",
            b"#pragma species A[1:127]|element at (2*i+1) exact -> A[0:126]|element at (2*i) exact\n",
        ),
        (
            b"int A[256]; void f(void) { for (int i = 0; i < 64; i++) A[4 * i] = A[2 * i + 1]; }",
            b"#pragma species A[1:127]|element at (2*i+1) exact -> A[0:252]|element at (4*i) exact\n",
        ),
        (
            b"int A[128]; void f(void) { for (int i = 0; i < 64; i++) A[i] = A[i + 64]; }",
            b"#pragma species A[64:127]|element at (i+64) exact -> A[0:63]|element at (i) exact\n",
        ),
        (
            b"int A[129]; void f(void) { for (int i = 0; i < 65; i++) A[i] = A[i + 64]; }",
            b"#pragma species sequential carried A 0 1\n",
        ),
        (
            b"int A[65]; void f(void) { for (int i = 0; i < 64; i++) A[i] = A[i + 1]; }",
            b"#pragma species sequential carried A 0 1\n",
        ),
        (
            b"int A[4]; void f(void) { for (int i = 0; i < 1; i++) A[0] = 5; }",
            b"#pragma species none -> A[0:0]|element at (0) exact\n",
        ),
        (
            b"int A[4]; void f(void) { for (int i = 0; i < 0; i++) A[0] = 5; }",
            b"#pragma species none -> A[0:0]|element at (0) exact\n",
        ),
        (
            b"int A[64][64]; void f(void) { for (int i = 0; i < 64; i++) for (int j = i; j < 64; j++) A[i][j] = 1; }",
            b"#pragma species none -> A[0:63,0:63]|chunk(-,0:63) at (i,0) within\n",
        ),
        (
            b"int A[64][64]; int B[64][64]; int C[64][64]; void f(void) { for (int i = 0; i < 64; i++) for (int j = 0; j < 64; j++) { C[i][j] = 0; for (int k = 0; k < 64; k++) C[i][j] += A[i][k] * B[k][j]; } }",
            b"#pragma species C[0:63,0:63]|element at (i,j) exact ^ A[0:63,0:63]|chunk(-,0:63) at (i,0) exact ^ B[0:63,0:63]|chunk(0:63,-) at (0,j) exact -> C[0:63,0:63]|element at (i,j) exact\n",
        ),
        (
            b"int A[4096][4096]; void f(void) { for (int i = 0; i < 4096; i++) for (int j = 0; j < 4096; j++) for (int k = 0; k < 4096; k++) for (int l = 0; l < 4096; l++) A[i][j] = A[i][j] + 1; }",
            b"#pragma species A[0:4095,0:4095]|element at (i,j) exact -> A[0:4095,0:4095]|element at (i,j) exact\n",
        ),
        (
            b"int A[16777216]; void f(void) { for (int i = 0; i < 1073741824; i++) A[i] = A[i + 1073741824]; }",
            b"#pragma species A[1073741824:2147483647]|element at (i+1073741824) exact -> A[0:1073741823]|element at (i) exact\n",
        ),
    ];
    for (program, text) in rows {
        let found = lines_of(rt.alloc(), program)?;
        assert_eq!(rt; found.as_slice(), text);
    }
    Ok(())
}

#[test]
fn sums_and_sequential_loops(rt: HostRuntime) -> Result<(), Fail> {
    let rows: [(&[u8], &[u8]); 12] = [
        (
            b"unsigned h[256]; int img[4096]; void f(void) { for (int i = 0; i < 4096; i++) h[img[i]]++; }",
            b"#pragma species img[0:4095]|element at (i) exact -> h[0:255]|shared(0:255) at (0) within\n",
        ),
        (
            b"unsigned h[4]; void f(void) { for (int i = 0; i < 8; i++) { h[i & 3] += i; h[0] += 1u; } }",
            b"#pragma species none -> h[0:3]|shared(0:3) at (0) within\n",
        ),
        (
            b"int s[1]; int A[64]; void f(void) { for (int i = 0; i < 64; i++) s[0] += A[i]; }",
            b"#pragma species sequential carried s 0 2\n",
        ),
        (
            b"unsigned s[1]; unsigned A[64]; void f(void) { for (int i = 0; i < 64; i++) s[0] += A[i]; }",
            b"#pragma species A[0:63]|element at (i) exact -> s[0:0]|shared(-) at (0) exact\n",
        ),
        (
            b"unsigned s[1]; unsigned A[64]; unsigned B[64]; void f(void) { for (int i = 0; i < 64; i++) { s[0] += A[i]; B[i] = s[0]; } }",
            b"#pragma species sequential carried s 0 2\n",
        ),
        (
            b"long long s[1]; int A[64]; void f(void) { for (int i = 0; i < 64; i++) s[0] += A[i]; }",
            b"#pragma species sequential carried s 0 2\n",
        ),
        (
            b"int A[64]; int B[64]; void f(void) { for (int t = 0; t < 10; t++) { for (int i = 1; i < 63; i++) B[i] = A[i - 1] + A[i + 1]; for (int j = 1; j < 63; j++) A[j] = B[j]; } }",
            b"#pragma species sequential carried A 0 4\n#pragma species A[0:63]|neighbourhood(-1:1:2) at (i) exact -> B[1:62]|element at (i) exact\n#pragma species B[1:62]|element at (j) exact -> A[1:62]|element at (j) exact\n",
        ),
        (
            b"int X[10][64]; void f(void) { for (int t = 1; t < 10; t++) for (int i = 0; i < 64; i++) X[t][i] = X[t - 1][i]; }",
            b"#pragma species sequential carried X 0 1\n#pragma species X[t-1:t-1,0:63]|element at (t-1,i) exact -> X[t:t,0:63]|element at (t,i) exact\n",
        ),
        (
            b"int A[4]; void f(void) { int n = 0; for (int i = 0; i < 4; i++) { n = n + 1; A[i] = n; } }",
            b"#pragma species sequential local n\n",
        ),
        (
            b"int A[4][4]; void f(void) { int n = 0; for (int i = 0; i < 4; i++) { n = n + 1; for (int j = 0; j < 4; j++) A[i][j] = n; } }",
            b"#pragma species sequential local n\n#pragma species none -> A[i:i,0:3]|element at (i,j) exact\n",
        ),
        (
            b"int A[4]; int B[4]; void f(void) { if (A[0]) for (int i = 0; i < 4; i++) A[i] = 1; else { for (int i = 1; i < 4; i++) B[i] = B[i - 1]; } }",
            b"#pragma species none -> A[0:3]|element at (i) exact\n#pragma species sequential carried B 0 1\n",
        ),
        (
            b"int A[4]; int B[4]; void f(void) { \n#pragma species none -> none\n\n#pragma omp parallel for\nfor (int i = 0; i < 4; i++) { for (int j = 0; j < 4; j++) { A[j] = 1; } } }",
            b"#pragma species sequential carried A 0 0\n#pragma species none -> A[0:3]|element at (j) exact\n",
        ),
    ];
    for (program, text) in rows {
        let found = lines_of(rt.alloc(), program)?;
        assert_eq!(rt; found.as_slice(), text);
    }
    Ok(())
}
