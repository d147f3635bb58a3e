//! Kernels as users write them: printed, read again and printed again.
use super::read;
use species_ast::{OutOfMemory, Unit, strip};
use species_print::print;
use std::alloc::Global;
use std::process::Abort;
use std::test::Fail;

pub(crate) static BLUR: &str = "#include <stdint.h>
/* blur */
#define N 6
static int a[N][N], b[N][N];
void blur() {
  int i, j;
#pragma scop
  for (i = 1; i < N - 1; i++)
    for (j = 1; j < N - 1; j++)
      b[i][j] = (a[i][j-1] + a[i][j] + a[i][j+1]) / 3;
#pragma endscop
}
";

static BLUR_PRINTED: &str = "#include <stdint.h>
int a[6][6];
int b[6][6];
void blur(void) {
    for (int i = 1; i < 6 - 1; i++) {
        for (int j = 1; j < 6 - 1; j++) {
            b[i][j] = (a[i][j - 1] + a[i][j] + a[i][j + 1]) / 3;
        }
    }
}
";

static SUMS: &str = "int M[64][128];
int x[128];
int y[64];
void k(void) {
    for (int i = 0; i < 64; i++) {
        int s = 0;
        for (int j = 0; j < 128; j++) s += M[i][j] * x[j];
        y[i] = s;
    }
}
";

static SUMS_PRINTED: &str = "int M[64][128];
int x[128];
int y[64];
void k(void) {
    for (int i = 0; i < 64; i++) {
        int s = 0;
        for (int j = 0; j < 128; j++) {
            s = s + M[i][j] * x[j];
        }
        y[i] = s;
    }
}
";

static DOUBLING: &str = "int A[64];
int B[64];
void k(void) {
    for (int i = 0; i < 64; i++) {
        B[i] = 2 * A[i];
    }
}
";

static QUOTIENT: &str = "int A[4];
int B[4];
void k(void) {
    for (int i = 0; i < 4; i++) {
        A[i] = 10 / B[i];
    }
}
";

static COUNTS: &str = "unsigned h[256];
int img[4096];
void k(void) {
    for (int i = 0; i < 4096; i++) h[img[i]]++;
}
";

static PRODUCT: &str = "int A[64][64], B[64][64], C[64][64];
void product(void) {
    for (int i = 0; i < 64; i++)
        for (int j = 0; j < 64; j++) {
            C[i][j] = 0;
            for (int k = 0; k < 64; k++) C[i][j] += A[i][k] * B[k][j];
        }
}
";

static WIDE: &str = "long long p[1];
int A[1];
void k(void) {
    for (int i = 0; i < 1; i++) p[0] = A[0] * 2147483647ll;
}
";

static LINE: &str = "int A[64];
int B[64];
void k(void) {
    #pragma species A[0:63]|
    for (int i = 1; i < 63; i++) B[i] = A[i - 1];
}
";

static MARKS: &str = "unsigned h[256];
int img[4096];
void k(void) {
    #pragma species img[0:4095]|element at (i) exact -> h[0:255]|shared(0:255) at (0) within
    #pragma omp parallel for schedule(dynamic, 64)
    for (int i = 0; i < 4096; i++) {
        #pragma omp atomic update
        h[img[i]] += 1;
    }
}
";

static BRANCHES: &str = "int A[8];
void k(void) {
    #pragma species sequential carried A 0 1
    for (int i = 7; i > 0; i -= 2) {
        if (A[i] > 0) if (i > 1) A[i] = - -i - -1; else ;
        else { int t, u = -i; { t = u; A[i - 1] = t; } }
    }
}
";

pub(crate) fn printed(alloc: Global, unit: &Unit) -> Result<Vec<u8>, OutOfMemory> {
    let plain = strip(alloc, unit, true)?;
    print(alloc, &plain)
}

fn printed_text(alloc: Global, text: &[u8]) -> Result<Vec<u8>, Fail> {
    let unit = read(alloc, text)?;
    Ok(printed(alloc, &unit)?)
}

/// What is printed of a text is printed again as it stands.
fn compare(rt: &impl Abort, alloc: Global, texts: &[&str]) -> Result<(), Fail> {
    for text in texts {
        let once = printed_text(alloc, text.as_bytes())?;
        let again = printed_text(alloc, once.as_slice())?;
        assert_eq!(rt; again.as_slice(), once.as_slice(), "{text}");
    }
    Ok(())
}

fn compare_printed(rt: &impl Abort, alloc: Global, rows: &[(&str, &str)]) -> Result<(), Fail> {
    for (text, want) in rows {
        let once = printed_text(alloc, text.as_bytes())?;
        assert_eq!(rt; str::from_utf8(&once)?, *want, "{text}");
    }
    Ok(())
}

#[test]
fn kernels_have_their_canonical_text(rt: HostRuntime) -> Result<(), Fail> {
    compare_printed(
        &rt,
        rt.alloc(),
        &[(BLUR, BLUR_PRINTED), (SUMS, SUMS_PRINTED)],
    )
}

#[test]
fn kernels_are_printed_and_read_again(rt: HostRuntime) -> Result<(), Fail> {
    let texts = [
        BLUR, SUMS, DOUBLING, QUOTIENT, COUNTS, PRODUCT, WIDE, LINE, MARKS, BRANCHES,
    ];
    compare(&rt, rt.alloc(), &texts)
}
