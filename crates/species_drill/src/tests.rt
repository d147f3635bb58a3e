use super::nests::next;
use super::{Counts, program, summary};
use std::test::Fail;

const FRONT: &[u8] =
    b"int A[4096];\nint B[4096];\nint M[64][64];\nunsigned H[256];\nvoid drill(void) {\n";

#[test]
fn numbers_pick_shapes_and_constants(rt: HostRuntime) {
    let picked: [(u32, u32); 9] = [
        (2, 18),
        (4, 34),
        (2, 55),
        (5, 62),
        (0, 35),
        (4, 7),
        (2, 42),
        (5, 14),
        (1, 42),
    ];
    let mut number = 0;
    for (shape, constant) in picked {
        number = next(number);
        assert_eq!(rt; number / 65_536 % 6, shape);
        assert_eq!(rt; number / 65_536 / 6 % 64, constant);
    }
    assert_eq!(rt; next(0), 1_013_904_223);
    assert_eq!(rt; next(1_013_904_223), 1_196_435_762);
    assert_eq!(rt; next(1_196_435_762), 3_519_870_697);
}

#[test]
fn each_shape_is_written(rt: HostRuntime) -> Result<(), Fail> {
    let nests: [(u32, &[u8]); 6] = [
        (
            7,
            b"    for (int i = 0; i < 1024; i++) {\n        B[i] = A[i + 48];\n    }\n}\n",
        ),
        (
            3,
            b"    for (int i = 0; i < 1024; i++) {\n        A[i + 1] = A[i];\n    }\n}\n",
        ),
        (
            0,
            b"    for (int i = 1; i < 1023; i++) {\n        B[i] = A[i - 1] + A[i] + A[i + 1];\n    }\n}\n",
        ),
        (
            5,
            b"    for (int i = 0; i < 1024; i++) {\n        H[A[i] & 255] += 1;\n    }\n}\n",
        ),
        (
            1,
            b"    for (int i = 0; i < 1024; i++) {\n        A[2 * i] = A[2 * i + 1];\n    }\n}\n",
        ),
        (
            2,
            b"    for (int i = 0; i < 64; i++) {\n        for (int j = 0; j < 64; j++) {\n            M[i][j] = M[i][j] + 26;\n        }\n    }\n}\n",
        ),
    ];
    for (from, nest) in nests {
        let text = program(rt.alloc(), 1, from).or(Err("memory"))?;
        assert!(rt; text.as_slice().starts_with(FRONT), "{from}");
        assert!(rt; text.as_slice().ends_with(nest), "{from}");
        assert!(rt; text.len() == FRONT.len() + nest.len(), "{from}");
    }
    let text = program(rt.alloc(), 9, 0).or(Err("memory"))?;
    assert_eq!(rt; text.len(), 878);
    Ok(())
}

#[test]
fn summary_is_one_line(rt: HostRuntime) -> Result<(), Fail> {
    let counts = Counts {
        nests: 9,
        parallel: 8,
        sequential: 1,
        shared: 0,
        joined: 0,
        bytes: 2079,
    };
    let line = summary(rt.alloc(), &counts).or(Err("memory"))?;
    let wanted = b"nests 9 parallel 8 sequential 1 shared 0 joined 0 bytes 2079\n";
    assert!(rt; line.as_slice() == wanted.as_slice());
    Ok(())
}
