//! The places of all expressions, statements and names.

use super::compare_places;
use std::test::Fail;

static PLACES: [(&str, &str); 14] = [
    (
        "void k() { x = a + b; }",
        "(void k@5 11:(= x@11 15:(+ 15:a@15 19:b@19)))",
    ),
    (
        "void k() { x = (a) * -b; }",
        "(void k@5 11:(= x@11 15:(* 15:(paren 16:a@16) 21:(neg 22:b@22))))",
    ),
    (
        "void k() { ++A[i]; A[0]--; }",
        "(void k@5 11:(up-before (A@13 15:i@15)) 19:(down (A@19 21:0)))",
    ),
    (
        "void k() { x = a ? b : (int)c; }",
        "(void k@5 11:(= x@11 15:(? 15:a@15 19:b@19 23:(int 28:c@28))))",
    ),
    (
        "void k() { x = - -a[b[c]] - (unsigned)((1)); }",
        "(void k@5 11:(= x@11 15:(- 15:(neg 17:(neg 18:(a@18 20:(b@20 22:c@22)))) 28:(unsigned 38:(paren 39:(paren 40:1))))))",
    ),
    (
        "void k() { x = a || b && c; }",
        "(void k@5 11:(= x@11 15:(|| 15:a@15 20:(&& 20:b@20 25:c@25))))",
    ),
    (
        "#define N 7\nvoid k() { x = N; }",
        "(void k@17 23:(= x@23 27:7))",
    ),
    (
        "void k() { unsigned int x = 1, y; { ; } }",
        "(void k@5 11:(declare unsigned (x@24 28:1) (y@31)) 34:(block 36:(empty)))",
    ),
    (
        "void k() { if (a) x = 1; else if (b) ; }",
        "(void k@5 11:(if 15:a@15 18:(= x@18 22:1) 30:(if 34:b@34 37:(empty))))",
    ),
    (
        "void k() { for (i = 0; i < 4; i = j - 2 * k) {} }",
        "(void k@5 11:(for i@16 20:0 i@23 < 27:4 (=- i@30 j@34 38:(* 38:2 42:k@42)) 45:(block)))",
    ),
    (
        "void k() {\n#pragma species x y\n#pragma omp parallel for\nfor (int i = 0; j < 4; k += 2) ;\n}",
        "(void k@5 56:(for (line x y@11) (parallel 1 Static) typed i@65 69:0 j@72 < 76:4 (+= k@79 84:2) 87:(empty)))",
    ),
    (
        "void k() {\n  # /* c */ pragma species x\nfor (i = 0; i < 4; ++i) ;\n}",
        "(void k@5 40:(for (line x@13) i@45 49:0 i@52 < 56:4 (up-before i@61) 64:(empty)))",
    ),
    (
        "void k() {\n#pragma omp atomic update\nA[0] += 1;\n}",
        "(void k@5 37:(atomic += (A@37 39:0) 45:1))",
    ),
    (
        "#include <a>\nstatic int A[2], B[3][N];\nvoid k() {}",
        "(include <a>@0) (global int (A@24 26:2) (B@30 32:3 35:N@35)) (void k@44)",
    ),
];

#[test]
fn each_part_has_the_place_of_its_first_token(rt: HostRuntime) -> Result<(), Fail> {
    compare_places(&rt, rt.alloc(), &PLACES)
}
