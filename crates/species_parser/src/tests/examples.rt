//! Whole kernels as users write them.

use super::{compare_places, compare_programs};
use std::test::Fail;

static DOUBLING: &str = "int A[64];
int B[64];
void k(void) {
    for (int i = 0; i < 64; i++) {
        B[i] = 2 * A[i];
    }
}
";

static QUOTIENT: &str = "int A[4];
int B[4];
void k(void) {
    for (int i = 0; i < 4; i++) {
        A[i] = 10 / B[i];
    }
}
";

static MARKED: &str = "int A[64];
int B[64];
void k(void) {
    #pragma species A[0:63]|
    for (int i = 1; i < 63; i++) B[i] = A[i - 1];
}
";

static BLUR: &str = "#include <stdint.h>
/* blur */
#define N 6
static int a[N][N], b[N][N];
void blur() {
  int i, j;
#pragma scop
  for (i = 1; i < N - 1; i++)
    for (j = 1; j < N - 1; j++)
      b[i][j] = (a[i][j-1] + a[i][j] + a[i][j+1]) / 3;
#pragma endscop
}
";

static SUMS: &str = "int M[64][128];
int x[128];
int y[64];
void k(void) {
    for (int i = 0; i < 64; i++) {
        int s = 0;
        for (int j = 0; j < 128; j++) s += M[i][j] * x[j];
        y[i] = s;
    }
}
";

static COUNTS: &str = "unsigned h[256];
int img[4096];
void k(void) {
    for (int i = 0; i < 4096; i++) h[img[i]]++;
}
";

static PRODUCT: &str = "int A[64][64], B[64][64], C[64][64];
void product(void) {
    for (int i = 0; i < 64; i++)
        for (int j = 0; j < 64; j++) {
            C[i][j] = 0;
            for (int k = 0; k < 64; k++) C[i][j] += A[i][k] * B[k][j];
        }
}
";

static UNKNOWN: &str = "void k(void) { A[0] = 1; }";

#[test]
fn kernels_are_read(rt: HostRuntime) -> Result<(), Fail> {
    let cases = [
        (
            BLUR,
            "(include <stdint.h>) (global int (a 6 6) (b 6 6)) (void blur (declare int (i) (j)) (for i 1 i < (- 6 1) (up i) (for j 1 j < (- 6 1) (up j) (= (b i j) (/ (paren (+ (+ (a i (- j 1)) (a i j)) (a i (+ j 1)))) 3)))))",
        ),
        (
            SUMS,
            "(global int (M 64 128)) (global int (x 128)) (global int (y 64)) (void k (for typed i 0 i < 64 (up i) (block (declare int (s 0)) (for typed j 0 j < 128 (up j) (+= s (* (M i j) (x j)))) (= (y i) s))))",
        ),
        (
            COUNTS,
            "(global unsigned (h 256)) (global int (img 4096)) (void k (for typed i 0 i < 4096 (up i) (up (h (img i)))))",
        ),
        (
            PRODUCT,
            "(global int (A 64 64) (B 64 64) (C 64 64)) (void product (for typed i 0 i < 64 (up i) (for typed j 0 j < 64 (up j) (block (= (C i j) 0) (for typed k 0 k < 64 (up k) (+= (C i j) (* (A i k) (B k j))))))))",
        ),
        (UNKNOWN, "(void k (= (A 0) 1))"),
    ];
    compare_programs(&rt, rt.alloc(), &cases)
}

#[test]
fn kernels_have_their_places(rt: HostRuntime) -> Result<(), Fail> {
    let cases = [
        (
            DOUBLING,
            "(global int (A@4 6:64)) (global int (B@15 17:64)) (void k@27 41:(for typed i@50 54:0 i@57 < 61:64 (up i@65) 70:(block 80:(= (B@80 82:i@82) 87:(* 87:2 91:(A@91 93:i@93))))))",
        ),
        (
            QUOTIENT,
            "(global int (A@4 6:4)) (global int (B@14 16:4)) (void k@25 39:(for typed i@48 52:0 i@55 < 59:4 (up i@62) 67:(block 77:(= (A@77 79:i@79) 84:(/ 84:10 89:(B@89 91:i@91))))))",
        ),
        (
            MARKED,
            "(global int (A@4 6:64)) (global int (B@15 17:64)) (void k@27 70:(for (line A[0:63]|@41) typed i@79 83:1 i@86 < 90:63 (up i@94) 99:(= (B@99 101:i@101) 106:(A@106 108:(- 108:i@108 112:1)))))",
        ),
    ];
    compare_places(&rt, rt.alloc(), &cases)
}
