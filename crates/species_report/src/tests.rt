//! Worked tables of programs.

ghost use Rattle.std.specs.Prelude.{IfOk};
ghost use Rattle.species_ast.specs.Scope.WellMade.{IsWellMade};

use crate::table;
use species_ast::{MOST_BYTES, Unit};
use species_reading::{ProgramRefusal, read_program};
use std::alloc::Global;
use std::test::Fail;

/// What a text is read as; one past the limit is not tried.
fn read(alloc: Global, text: &[u8]) -> Result<Unit, ProgramRefusal>
    ensures { IfOk result IsWellMade }
{
    if text.len() > MOST_BYTES as usize {
        return Err(ProgramRefusal::Memory);
    }
    read_program(alloc, text)
}

/// The table of the program of a text.
fn table_of(alloc: Global, text: &[u8]) -> Result<Vec<u8>, Fail> {
    let unit = read(alloc, text)?;
    let text = table(alloc, &unit)?;
    Ok(text)
}

#[test]
fn worked_tables(rt: HostRuntime) -> Result<(), Fail> {
    let rows: [(&[u8], &[u8]); 13] = [
        (
            b"int A[64];\nint B[64];\nvoid k(void) {\n    for (int i = 0; i < 64; i++) {\n        B[i] = 2 * A[i];\n    }\n}\n",
            b"loop 41\n0 read A[0:63] elements (1) step (1)|element at (i) exact\n1 write B[0:63] elements (1) step (1)|element at (i) exact\n",
        ),
        (
            b"int A[8]; void f(void) { for (int i = 3; i < 8; i++) A[i] = A[i - 3]; }",
            b"loop 25\n0 read A[0:4] elements (1) step (1)|element at (i-3) exact\n1 write A[3:7] elements (1) step (1)|element at (i) exact\n",
        ),
        (
            b"int A[1]; void f(void) { for (int i = 0; i < 0; i++) A[i] = 1; }",
            b"loop 25\n0 write A[0:-1] elements (1) step (1)|element at (i) exact\n",
        ),
        (
            b"int M[64][128]; int x[128]; int y[64]; void f(void) { for (int i = 0; i < 64; i++) { int s = 0; for (int j = 0; j < 128; j++) s += M[i][j] * x[j]; y[i] = s; } }",
            b"loop 54\n0 read M[0:63,0:127] elements (1,128) step (1,0)|chunk(-,0:127) at (i,0) exact\n1 read x[0:127] elements (128) step (0)|full(0:127) at (0) exact\n2 write y[0:63] elements (1) step (1)|element at (i) exact\n",
        ),
        (
            b"int A[64]; int B[64]; void f(void) { for (int i = 1; i < 63; i++) B[i] = A[i - 1] + A[i] + A[i + 1]; }",
            b"loop 37\n0 read A[0:61] elements (1) step (1)|element at (i-1) exact\n1 read A[1:62] elements (1) step (1)|element at (i) exact\n2 read A[2:63] elements (1) step (1)|element at (i+1) exact\n3 write B[1:62] elements (1) step (1)|element at (i) exact\n",
        ),
        (
            b"int A[64][64]; int B[64][64]; void f(void) { for (int i = 1; i < 63; i++) for (int j = 1; j < 63; j++) B[i][j] = A[i][j] + A[i - 1][j] + A[i + 1][j] + A[i][j - 1] + A[i][j + 1]; }",
            b"loop 45\n0 read A[1:62,1:62] elements (1,62) step (1,0)|chunk(-,1:62) at (i,0) exact\n1 read A[0:61,1:62] elements (1,62) step (1,0)|chunk(-,1:62) at (i-1,0) exact\n2 read A[2:63,1:62] elements (1,62) step (1,0)|chunk(-,1:62) at (i+1,0) exact\n3 read A[1:62,0:61] elements (1,62) step (1,0)|chunk(-,0:61) at (i,0) exact\n4 read A[1:62,2:63] elements (1,62) step (1,0)|chunk(-,2:63) at (i,0) exact\n5 write B[1:62,1:62] elements (1,62) step (1,0)|chunk(-,1:62) at (i,0) exact\n",
        ),
        (
            b"int A[127]; int s[64]; void f(void) { for (int i = 0; i < 64; i++) s[i] = A[i] + A[2 * i]; }",
            b"loop 38\n0 read A[0:63] elements (1) step (1)|element at (i) exact\n1 read A[0:126] elements (1) step (2)|element at (2*i) exact\n2 write s[0:63] elements (1) step (1)|element at (i) exact\n",
        ),
        (
            b"int X[10][64]; void f(void) { for (int t = 1; t < 10; t++) for (int i = 0; i < 64; i++) X[t][i] = X[t - 1][i]; }",
            b"loop 30\n0 read X[0:8,0:63] elements (1,64) step (1,0)|chunk(-,0:63) at (t-1,0) exact\n1 write X[1:9,0:63] elements (1,64) step (1,0)|chunk(-,0:63) at (t,0) exact\n",
        ),
        (
            b"int A[64]; int B[64]; void f(void) { for (int t = 0; t < 10; t++) { for (int i = 1; i < 63; i++) B[i] = A[i - 1] + A[i + 1]; for (int j = 1; j < 63; j++) A[j] = B[j]; } }",
            b"loop 37\n0 read A[0:61] elements (62) step (0)|full(0:61) at (0) exact\n1 read A[2:63] elements (62) step (0)|full(2:63) at (0) exact\n2 write B[1:62] elements (62) step (0)|full(1:62) at (0) exact\n3 read B[1:62] elements (62) step (0)|full(1:62) at (0) exact\n4 write A[1:62] elements (62) step (0)|full(1:62) at (0) exact\n",
        ),
        (
            b"int A[64][8]; int y[64]; void f(void) { for (int i = 0; i < 64; i++) { int s = 0; for (int j = 0; j < 8; j += 2) s += A[i][j]; y[i] = s; } }",
            b"loop 40\n0 read A[0:63,0:6] elements (1,4) step (1,0)|chunk(-,0:6:2) at (i,0) exact\n1 write y[0:63] elements (1) step (1)|element at (i) exact\n",
        ),
        (
            b"int A[64][64]; void f(void) { for (int i = 0; i < 64; i++) for (int j = i; j < 64; j++) A[i][j] = 1; }",
            b"loop 30\n0 write A[0:63,0:63] elements (1,64) step (1,0)|chunk(-,0:63) at (i,0) within\n",
        ),
        (
            b"int A[64][64]; int B[64][64]; int C[64][64]; void f(void) { for (int i = 0; i < 64; i++) for (int j = 0; j < 64; j++) { C[i][j] = 0; for (int k = 0; k < 64; k++) C[i][j] += A[i][k] * B[k][j]; } }",
            b"loop 60\n0 write C[0:63,0:63] elements (1,64) step (1,0)|chunk(-,0:63) at (i,0) exact\n1 read C[0:63,0:63] elements (1,64) step (1,0)|chunk(-,0:63) at (i,0) exact\n2 read A[0:63,0:63] elements (1,64) step (1,0)|chunk(-,0:63) at (i,0) exact\n3 read B[0:63,0:63] elements (64,64) step (0,0)|full(0:63,0:63) at (0,0) exact\n4 write C[0:63,0:63] elements (1,64) step (1,0)|chunk(-,0:63) at (i,0) exact\n",
        ),
        (
            b"int A[64]; void f(void) { if (A[0]) { for (int i = 63; i >= 0; i--) A[63 - i] = 0; } else for (int n = 0; n < 8; n += 2) A[A[n]] = 2; for (int m = 0; m < 1; m++); }",
            b"loop 38\n0 write A[0:63] elements (1) step (1)|element at (-i+63) exact\nloop 90\n0 read A[0:6] elements (1) step (2)|element at (n) exact\n1 write A[0:63] elements (64) step (0)|full(0:63) at (0) within\nloop 134\n",
        ),
    ];
    for (program, text) in rows {
        let found = table_of(rt.alloc(), program)?;
        assert_eq!(rt; found.as_slice(), text);
    }
    Ok(())
}
