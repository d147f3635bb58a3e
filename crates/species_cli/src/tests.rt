//! Whole calls of the program: bytes in, bytes out, and the status.

use super::*;
use species_ast::OutOfMemory;
use species_io::{MemSink, MemSource};
use std::alloc::{AllocError, Global};

const USAGE: &[u8] =
    b"usage: species arcs|annotate|compile|check|run [--trace]|drill --nests N --from F\n";

const ROOM: usize = 16_777_216;

const COPY: &[u8] =
    b"int A[64];\nint B[64];\nvoid k(void) {\n    for (int i = 0; i < 64; i++) {\n        B[i] = 2 * A[i];\n    }\n}\n";

const COPY_TABLE: &[u8] =
    b"loop 41\n0 read A[0:63] elements (1) step (1)|element at (i) exact\n1 write B[0:63] elements (1) step (1)|element at (i) exact\n";

/// How the bytes go in and out: the most of one call, and one call that fails.
#[derive(Clone, Copy)]
struct Channels {
    read_piece: usize,
    read_fails: u64,
    write_piece: usize,
    write_fails: u64,
    note_fails: u64,
}

const NEVER: u64 = u64::MAX - 1;

const PLAIN: Channels = Channels {
    read_piece: 65_536,
    read_fails: NEVER,
    write_piece: 65_536,
    write_fails: NEVER,
    note_fails: NEVER,
};

fn words(alloc: Global, texts: &[&str]) -> Result<Vec<String>, AllocError> {
    let mut words = Vec::new(alloc);
    for text in texts {
        words.push(String::from_str(alloc, text)?)?;
    }
    Ok(words)
}

fn sink(alloc: Global, piece: usize, fails: u64) -> Result<MemSink, OutOfMemory> {
    MemSink::new(alloc, ROOM, piece.max(1), Vec::from_slice(alloc, &[fails])?)
}

/// The status, what `output` took and what `notes` took.
fn run(
    alloc: Global,
    texts: &[&str],
    input: Vec<u8>,
    channels: Channels,
) -> Result<(u8, MemSink, MemSink), OutOfMemory> {
    let words = words(alloc, texts)?;
    let fails = Vec::from_slice(alloc, &[channels.read_fails])?;
    let mut input = MemSource::new(input, channels.read_piece.max(1), fails);
    let mut output = sink(alloc, channels.write_piece, channels.write_fails)?;
    let mut notes = sink(alloc, channels.write_piece, channels.note_fails)?;
    let status = species(alloc, &words, &mut input, &mut output, &mut notes);
    Ok((status, output, notes))
}

#[test]
fn tables(rt: HostRuntime) {
    let cases: [(&[u8], &[u8]); 7] = [
        (COPY, COPY_TABLE),
        (
            b"int A[8];\nvoid k(void) {\n    for (int i = 3; i < 8; i++) {\n        A[i] = A[i - 3];\n    }\n}\n",
            b"loop 29\n0 read A[0:4] elements (1) step (1)|element at (i-3) exact\n1 write A[3:7] elements (1) step (1)|element at (i) exact\n",
        ),
        (
            b"int A[1];\nvoid k(void) {\n    for (int i = 0; i < 0; i++) {\n        A[i] = 1;\n    }\n}\n",
            b"loop 29\n0 write A[0:-1] elements (1) step (1)|element at (i) exact\n",
        ),
        (
            b"int A[9];\nint B[9];\nvoid f(void) {\n    for (int n = 1; n < 8; n++) {\n        B[n] = A[n - 1] + 3 * B[n + 1] + 7;\n        A[n + 0] = 2;\n    }\n}\n",
            b"loop 39\n0 read A[0:6] elements (1) step (1)|element at (n-1) exact\n1 read B[2:8] elements (1) step (1)|element at (n+1) exact\n2 write B[1:7] elements (1) step (1)|element at (n) exact\n3 write A[1:7] elements (1) step (1)|element at (n) exact\n",
        ),
        (b"void f(void){for(int n=1;n<8;++n);}", b"loop 13\n"),
        (
            b"#define N 64\n/* two */ unsigned A [ N ] , B[N]; // arrays\nstatic void k() { int i;\n for (i = 0; i < N; i += 1)\n  B[i] = 2 * A[i]; }",
            b"loop 84\n0 read A[0:63] elements (1) step (1)|element at (i) exact\n1 write B[0:63] elements (1) step (1)|element at (i) exact\n",
        ),
        (
            b"int A[9];\nvoid k(void) {\nfor (int i = 0; i < 9; i++) A[i] = ~A[i] << 2;\nfor (int j = 1; j < 8; j++) { A[j + 1] = (unsigned)A[j]; } }",
            b"loop 25\n0 read A[0:8] elements (1) step (1)|element at (i) exact\n1 write A[0:8] elements (1) step (1)|element at (i) exact\nloop 72\n0 read A[1:7] elements (1) step (1)|element at (j) exact\n1 write A[2:8] elements (1) step (1)|element at (j+1) exact\n",
        ),
    ];
    let alloc = rt.alloc();
    for (text, output) in cases {
        let input = Vec::from_slice(alloc, text).expect(&rt, "memory");
        let got = run(alloc, &["species", "arcs"], input, PLAIN).expect(&rt, "memory");
        assert_eq!(rt; got.0, 0, "status");
        assert!(rt; got.1.bytes() == output, "output");
        assert!(rt; got.2.bytes().is_empty(), "notes");
    }
}

#[test]
fn annotated(rt: HostRuntime) {
    let cases: [(&[u8], &[u8]); 12] = [
        (
            b"int A[64];\nvoid k(void) {\n    for (int i = 1; i < 64; i++) {\n        A[i] = A[i - 1];\n    }\n}\n",
            b"int A[64];\nvoid k(void) {\n    #pragma species sequential carried A 0 1\n    for (int i = 1; i < 64; i++) {\n        A[i] = A[i - 1];\n    }\n}\n",
        ),
        (
            b"int A[128];\nvoid k(void) {\n    for (int i = 0; i < 64; i++) {\n        A[2 * i] = A[2 * i + 1];\n    }\n}\n",
            b"int A[128];\nvoid k(void) {\n    #pragma species A[1:127]|element at (2*i+1) exact -> A[0:126]|element at (2*i) exact\n    for (int i = 0; i < 64; i++) {\n        A[2 * i] = A[2 * i + 1];\n    }\n}\n",
        ),
        (
            b"int A[256];\nvoid k(void) {\n    for (int i = 0; i < 64; i++) {\n        A[4 * i] = A[2 * i + 1];\n    }\n}\n",
            b"int A[256];\nvoid k(void) {\n    #pragma species A[1:127]|element at (2*i+1) exact -> A[0:252]|element at (4*i) exact\n    for (int i = 0; i < 64; i++) {\n        A[4 * i] = A[2 * i + 1];\n    }\n}\n",
        ),
        (
            b"int A[128];\nvoid k(void) {\n    for (int i = 0; i < 64; i++) {\n        A[i] = A[i + 64];\n    }\n}\n",
            b"int A[128];\nvoid k(void) {\n    #pragma species A[64:127]|element at (i+64) exact -> A[0:63]|element at (i) exact\n    for (int i = 0; i < 64; i++) {\n        A[i] = A[i + 64];\n    }\n}\n",
        ),
        (
            b"int A[129];\nvoid k(void) {\n    for (int i = 0; i < 65; i++) {\n        A[i] = A[i + 64];\n    }\n}\n",
            b"int A[129];\nvoid k(void) {\n    #pragma species sequential carried A 0 1\n    for (int i = 0; i < 65; i++) {\n        A[i] = A[i + 64];\n    }\n}\n",
        ),
        (
            b"int A[65];\nvoid k(void) {\n    for (int i = 0; i < 64; i++) {\n        A[i] = A[i + 1];\n    }\n}\n",
            b"int A[65];\nvoid k(void) {\n    #pragma species sequential carried A 0 1\n    for (int i = 0; i < 64; i++) {\n        A[i] = A[i + 1];\n    }\n}\n",
        ),
        (
            b"int A[4];\nvoid k(void) {\n    int n = 0;\n    for (int i = 0; i < 4; i++) {\n        n = n + 1;\n        A[i] = n;\n    }\n}\n",
            b"int A[4];\nvoid k(void) {\n    int n = 0;\n    #pragma species sequential local n\n    for (int i = 0; i < 4; i++) {\n        n = n + 1;\n        A[i] = n;\n    }\n}\n",
        ),
        (
            b"int A[4][4];\nvoid k(void) {\n    int n = 0;\n    for (int i = 0; i < 4; i++) {\n        n = n + 1;\n        for (int j = 0; j < 4; j++) {\n            A[i][j] = n;\n        }\n    }\n}\n",
            b"int A[4][4];\nvoid k(void) {\n    int n = 0;\n    #pragma species sequential local n\n    for (int i = 0; i < 4; i++) {\n        n = n + 1;\n        #pragma species none -> A[i:i,0:3]|element at (i,j) exact\n        for (int j = 0; j < 4; j++) {\n            A[i][j] = n;\n        }\n    }\n}\n",
        ),
        (
            b"int A[4];\nvoid k(void) {\n    for (int i = 0; i < 1; i++) {\n        A[0] = 5;\n    }\n}\n",
            b"int A[4];\nvoid k(void) {\n    #pragma species none -> A[0:0]|element at (0) exact\n    for (int i = 0; i < 1; i++) {\n        A[0] = 5;\n    }\n}\n",
        ),
        (
            b"int A[4];\nvoid k(void) {\n    for (int i = 0; i < 0; i++) {\n        A[0] = 5;\n    }\n}\n",
            b"int A[4];\nvoid k(void) {\n    #pragma species none -> A[0:0]|element at (0) exact\n    for (int i = 0; i < 0; i++) {\n        A[0] = 5;\n    }\n}\n",
        ),
        (
            b"int A[64][64];\nvoid k(void) {\n    for (int i = 0; i < 64; i++) {\n        for (int j = i; j < 64; j++) {\n            A[i][j] = 1;\n        }\n    }\n}\n",
            b"int A[64][64];\nvoid k(void) {\n    #pragma species none -> A[0:63,0:63]|chunk(-,0:63) at (i,0) within\n    for (int i = 0; i < 64; i++) {\n        for (int j = i; j < 64; j++) {\n            A[i][j] = 1;\n        }\n    }\n}\n",
        ),
        (
            b"int A[64][64];\nint B[64][64];\nint C[64][64];\nvoid f(void) {\n    for (int i = 0; i < 64; i++) {\n        for (int j = 0; j < 64; j++) {\n            C[i][j] = 0;\n            for (int k = 0; k < 64; k++) {\n                C[i][j] += A[i][k] * B[k][j];\n            }\n        }\n    }\n}\n",
            b"int A[64][64];\nint B[64][64];\nint C[64][64];\nvoid f(void) {\n    #pragma species C[0:63,0:63]|element at (i,j) exact ^ A[0:63,0:63]|chunk(-,0:63) at (i,0) exact ^ B[0:63,0:63]|chunk(0:63,-) at (0,j) exact -> C[0:63,0:63]|element at (i,j) exact\n    for (int i = 0; i < 64; i++) {\n        for (int j = 0; j < 64; j++) {\n            C[i][j] = 0;\n            for (int k = 0; k < 64; k++) {\n                C[i][j] += A[i][k] * B[k][j];\n            }\n        }\n    }\n}\n",
        ),
    ];
    let alloc = rt.alloc();
    for (text, output) in cases {
        let input = Vec::from_slice(alloc, text).expect(&rt, "memory");
        let got = run(alloc, &["species", "annotate"], input, PLAIN).expect(&rt, "memory");
        assert_eq!(rt; got.0, 0, "status");
        assert!(rt; got.1.bytes() == output, "output");
        assert!(rt; got.2.bytes().is_empty(), "notes");
    }
}

#[test]
fn annotated_sums_and_inner_loops(rt: HostRuntime) {
    let cases: [(&[u8], &[u8]); 11] = [
        (
            b"unsigned h[256];\nint img[4096];\nvoid k(void) {\n    for (int i = 0; i < 4096; i++) {\n        h[img[i]]++;\n    }\n}\n",
            b"unsigned h[256];\nint img[4096];\nvoid k(void) {\n    #pragma species img[0:4095]|element at (i) exact -> h[0:255]|shared(0:255) at (0) within\n    for (int i = 0; i < 4096; i++) {\n        h[img[i]] += 1;\n    }\n}\n",
        ),
        (
            b"unsigned h[4];\nvoid k(void) {\n    for (int i = 0; i < 8; i++) {\n        h[i & 3] += i;\n        h[0] += 1u;\n    }\n}\n",
            b"unsigned h[4];\nvoid k(void) {\n    #pragma species none -> h[0:3]|shared(0:3) at (0) within\n    for (int i = 0; i < 8; i++) {\n        h[i & 3] += i;\n        h[0] += 1u;\n    }\n}\n",
        ),
        (
            b"int s[1];\nint A[64];\nvoid k(void) {\n    for (int i = 0; i < 64; i++) {\n        s[0] += A[i];\n    }\n}\n",
            b"int s[1];\nint A[64];\nvoid k(void) {\n    #pragma species sequential carried s 0 2\n    for (int i = 0; i < 64; i++) {\n        s[0] += A[i];\n    }\n}\n",
        ),
        (
            b"unsigned s[1];\nunsigned A[64];\nvoid k(void) {\n    for (int i = 0; i < 64; i++) {\n        s[0] += A[i];\n    }\n}\n",
            b"unsigned s[1];\nunsigned A[64];\nvoid k(void) {\n    #pragma species A[0:63]|element at (i) exact -> s[0:0]|shared(-) at (0) exact\n    for (int i = 0; i < 64; i++) {\n        s[0] += A[i];\n    }\n}\n",
        ),
        (
            b"unsigned s[1];\nunsigned A[64];\nunsigned B[64];\nvoid k(void) {\n    for (int i = 0; i < 64; i++) {\n        s[0] += A[i];\n        B[i] = s[0];\n    }\n}\n",
            b"unsigned s[1];\nunsigned A[64];\nunsigned B[64];\nvoid k(void) {\n    #pragma species sequential carried s 0 2\n    for (int i = 0; i < 64; i++) {\n        s[0] += A[i];\n        B[i] = s[0];\n    }\n}\n",
        ),
        (
            b"int A[64];\nint B[64];\nvoid k(void) {\n    for (int t = 0; t < 10; t++) {\n        for (int i = 1; i < 63; i++) {\n            B[i] = A[i - 1] + A[i + 1];\n        }\n        for (int j = 1; j < 63; j++) {\n            A[j] = B[j];\n        }\n    }\n}\n",
            b"int A[64];\nint B[64];\nvoid k(void) {\n    #pragma species sequential carried A 0 4\n    for (int t = 0; t < 10; t++) {\n        #pragma species A[0:63]|neighbourhood(-1:1:2) at (i) exact -> B[1:62]|element at (i) exact\n        for (int i = 1; i < 63; i++) {\n            B[i] = A[i - 1] + A[i + 1];\n        }\n        #pragma species B[1:62]|element at (j) exact -> A[1:62]|element at (j) exact\n        for (int j = 1; j < 63; j++) {\n            A[j] = B[j];\n        }\n    }\n}\n",
        ),
        (
            b"int X[10][64];\nvoid k(void) {\n    for (int t = 1; t < 10; t++) {\n        for (int i = 0; i < 64; i++) {\n            X[t][i] = X[t - 1][i];\n        }\n    }\n}\n",
            b"int X[10][64];\nvoid k(void) {\n    #pragma species sequential carried X 0 1\n    for (int t = 1; t < 10; t++) {\n        #pragma species X[t-1:t-1,0:63]|element at (t-1,i) exact -> X[t:t,0:63]|element at (t,i) exact\n        for (int i = 0; i < 64; i++) {\n            X[t][i] = X[t - 1][i];\n        }\n    }\n}\n",
        ),
        (
            b"int A[64];\nint B[64];\nint C[64];\nvoid k(void) {\n    for (int i = 0; i < 64; i++) {\n        B[i] = A[i];\n    }\n    for (int j = 0; j < 64; j++) {\n        C[j] = B[j];\n    }\n}\n",
            b"int A[64];\nint B[64];\nint C[64];\nvoid k(void) {\n    #pragma species A[0:63]|element at (i) exact -> B[0:63]|element at (i) exact\n    for (int i = 0; i < 64; i++) {\n        B[i] = A[i];\n    }\n    #pragma species B[0:63]|element at (j) exact -> C[0:63]|element at (j) exact\n    for (int j = 0; j < 64; j++) {\n        C[j] = B[j];\n    }\n}\n",
        ),
        (
            b"int A[4096][4096];\nvoid f(void) {\n    for (int i = 0; i < 4096; i++) {\n        for (int j = 0; j < 4096; j++) {\n            for (int k = 0; k < 4096; k++) {\n                for (int l = 0; l < 4096; l++) {\n                    A[i][j] = A[i][j] + 1;\n                }\n            }\n        }\n    }\n}\n",
            b"int A[4096][4096];\nvoid f(void) {\n    #pragma species A[0:4095,0:4095]|element at (i,j) exact -> A[0:4095,0:4095]|element at (i,j) exact\n    for (int i = 0; i < 4096; i++) {\n        for (int j = 0; j < 4096; j++) {\n            for (int k = 0; k < 4096; k++) {\n                for (int l = 0; l < 4096; l++) {\n                    A[i][j] = A[i][j] + 1;\n                }\n            }\n        }\n    }\n}\n",
        ),
        (
            b"int A[16777216];\nvoid k(void) {\n    for (int i = 0; i < 1073741824; i++) {\n        A[i] = A[i + 1073741824];\n    }\n}\n",
            b"int A[16777216];\nvoid k(void) {\n    #pragma species A[1073741824:2147483647]|element at (i+1073741824) exact -> A[0:1073741823]|element at (i) exact\n    for (int i = 0; i < 1073741824; i++) {\n        A[i] = A[i + 1073741824];\n    }\n}\n",
        ),
        (
            b"int A[4],B[4];void k(){\n#pragma species none -> none\nfor(int i=0;i<4;i++)if(A[0]){\n#pragma omp parallel for\nfor(int j=0;j<4;++j)A[j]=1;}}",
            b"int A[4];\nint B[4];\nvoid k(void) {\n    #pragma species sequential carried A 0 1\n    for (int i = 0; i < 4; i++) {\n        if (A[0]) {\n            #pragma species none -> A[0:3]|element at (j) exact\n            for (int j = 0; j < 4; j++) {\n                A[j] = 1;\n            }\n        }\n    }\n}\n",
        ),
    ];
    let alloc = rt.alloc();
    for (text, output) in cases {
        let input = Vec::from_slice(alloc, text).expect(&rt, "memory");
        let got = run(alloc, &["species", "annotate"], input, PLAIN).expect(&rt, "memory");
        assert_eq!(rt; got.0, 0, "status");
        assert!(rt; got.1.bytes() == output, "output");
        assert!(rt; got.2.bytes().is_empty(), "notes");
    }
}

#[test]
fn refusals(rt: HostRuntime) {
    let cases: [(&[u8], &[u8]); 14] = [
        (b"int A[4]; @", b"refused 1 BadByte at 10\n"),
        (b"int A[09];", b"refused 2 BadNumber at 6\n"),
        (b"int A[4]; /* x", b"refused 3 OpenComment at 10\n"),
        (b"", b"refused 4 Syntax at 0\n"),
        (b"int A[4];\n", b"refused 4 Syntax at 10\n"),
        (
            b"int A[4]; void k(void) { for (int i = 0; i < 4; j++) A[i] = 1; }",
            b"refused 5 Unknown at 48\n",
        ),
        (
            b"int A[4], A[2]; void k(void) { }",
            b"refused 6 Duplicate at 10\n",
        ),
        (
            b"int A[4]; void k(void) { A[0][0] = 1; }",
            b"refused 7 DimensionCount at 25\n",
        ),
        (
            b"int A[4]; void k(void) { for (int i = 0; i < 4; i++) i = 1; }",
            b"refused 8 IteratorAssigned at 53\n",
        ),
        (
            b"int A[4]; void k(void) { int i; for (i = 0; i < 4; i++) A[i] = 1; A[i] = 1; }",
            b"refused 9 IteratorOutside at 68\n",
        ),
        (
            b"int A[4]; void k(void) { for (int i = 0; i < A[0]; i++) A[i] = 1; }",
            b"refused 10 NotStatic at 45\n",
        ),
        (
            b"int A[4]; void k(void) { for (int i = 0; i < 4; i += 0) A[i] = 1; }",
            b"refused 11 BadStep at 25\n",
        ),
        (
            b"int A[0]; void k(void) { }",
            b"refused 12 LimitPassed(Elements) at 4\n",
        ),
        (
            b"int A[4];\nvoid k(void) {\n#pragma omp parallel for collapse(2)\nfor (int i = 0; i < 4; i++) A[i] = 1; }",
            b"refused 13 BadMark at 62\n",
        ),
    ];
    let alloc = rt.alloc();
    for (text, notes) in cases {
        let input = Vec::from_slice(alloc, text).expect(&rt, "memory");
        let got = run(alloc, &["species", "arcs"], input, PLAIN).expect(&rt, "memory");
        assert_eq!(rt; got.0, 1, "status");
        assert!(rt; got.1.bytes().is_empty(), "output");
        assert!(rt; got.2.bytes() == notes, "notes");
    }
}

#[test]
fn words_that_are_no_command(rt: HostRuntime) {
    let cases: [&[&str]; 6] = [
        &[],
        &["arcs"],
        &["species", "compile"],
        &["species", "arcs", "arcs"],
        &["species", "--help"],
        &["species", ""],
    ];
    let alloc = rt.alloc();
    for texts in cases {
        let input = Vec::from_slice(alloc, COPY).expect(&rt, "memory");
        let got = run(alloc, texts, input, PLAIN).expect(&rt, "memory");
        assert_eq!(rt; got.0, 2, "status");
        assert!(rt; got.1.bytes().is_empty(), "output");
        assert!(rt; got.2.bytes() == USAGE, "notes");
    }
}

#[test]
fn small_pieces_and_faults(rt: HostRuntime) {
    let slow = Channels {
        read_piece: 1,
        write_piece: 1,
        ..PLAIN
    };
    let tens = Channels {
        write_piece: 10,
        write_fails: 2,
        ..PLAIN
    };
    let cases: [(Channels, &[u8], u8, &[u8], &[u8]); 8] = [
        (slow, COPY, 0, COPY_TABLE, b""),
        (tens, COPY, 5, b"loop 41\n0 read A[0:6", b""),
        (
            Channels {
                write_fails: 0,
                ..PLAIN
            },
            COPY,
            5,
            b"",
            b"",
        ),
        (
            Channels {
                note_fails: 0,
                ..PLAIN
            },
            b"",
            5,
            b"",
            b"",
        ),
        (
            Channels {
                read_fails: 0,
                ..PLAIN
            },
            COPY,
            4,
            b"",
            b"read fault\n",
        ),
        (
            Channels {
                read_fails: 5,
                ..slow
            },
            COPY,
            4,
            b"",
            b"read fault\n",
        ),
        (
            Channels {
                note_fails: 3,
                ..slow
            },
            b"",
            5,
            b"",
            b"ref",
        ),
        (
            Channels {
                note_fails: 0,
                ..PLAIN
            },
            COPY,
            0,
            COPY_TABLE,
            b"",
        ),
    ];
    let alloc = rt.alloc();
    for (channels, text, status, output, notes) in cases {
        let input = Vec::from_slice(alloc, text).expect(&rt, "memory");
        let got = run(alloc, &["species", "arcs"], input, channels).expect(&rt, "memory");
        assert_eq!(rt; got.0, status, "status");
        assert!(rt; got.1.bytes() == output, "output");
        assert!(rt; got.2.bytes() == notes, "notes");
    }
}

#[test]
fn the_longest_input(rt: HostRuntime) {
    let cut = Channels {
        read_fails: 64,
        ..PLAIN
    };
    let cases: [(usize, Channels, u8, &[u8], &[u8]); 3] = [
        (4_194_304, PLAIN, 0, COPY_TABLE, b""),
        (4_194_304, cut, 4, b"", b"read fault\n"),
        (4_194_305, PLAIN, 1, b"", b"refused 18 TooLong at 4194304\n"),
    ];
    let alloc = rt.alloc();
    for (size, channels, status, output, notes) in cases {
        let mut input = Vec::from_slice(alloc, COPY).expect(&rt, "memory");
        input.resize(size, b' ').expect(&rt, "memory");
        let got = run(alloc, &["species", "arcs"], input, channels).expect(&rt, "memory");
        assert_eq!(rt; got.0, status, "status");
        assert!(rt; got.1.bytes() == output, "output");
        assert!(rt; got.2.bytes() == notes, "notes");
    }
}
