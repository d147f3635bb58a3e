use super::{DataRefusal, read_data, write_data};
use species_ast::{Array, Dims, Includes, Kind, Name, Unit};
use species_meaning::Arrays;
use sqlite_items::Items;
use std::alloc::Global;
use std::test::Fail;

/// `int A[4]; unsigned B[2]; long long L[2][1]; unsigned long long U[1];`
fn unit(alloc: Global) -> Result<Unit, Fail> {
    let declared: [(&[u8], Kind, &[u32]); 4] = [
        (b"A", Kind::Int, &[4]),
        (b"B", Kind::Unsigned, &[2]),
        (b"L", Kind::Long, &[2, 1]),
        (b"U", Kind::UnsignedLong, &[1]),
    ];
    let mut arrays = Items::new(alloc);
    for (name, kind, sizes) in declared {
        let name = Name::new(alloc, name).or(Err("memory"))?;
        let dims = Dims::from_vec(Vec::from_slice(alloc, sizes)?);
        arrays.push(Array { name, kind, dims })?;
    }
    Ok(Unit {
        includes: Includes::new(alloc),
        arrays,
        locals: Items::new(alloc),
        function: Name::new(alloc, b"k").or(Err("memory"))?,
        body: Items::new(alloc),
    })
}

/// What is read of a text; `Memory` where none so long may stand at this place.
fn read(alloc: Global, unit: &Unit, text: &[u8], base: u32) -> Result<Arrays, DataRefusal> {
    if text.len() as u64 + u64::from(base) > 4_194_304 {
        return Err(DataRefusal::Memory);
    }
    read_data(alloc, unit, text, base)
}

#[test]
fn data_is_read_and_written(rt: HostRuntime) -> Result<(), Fail> {
    let texts: [(&[u8], &[u8]); 5] = [
        (b"A 5 6 7 8\n", b"A 5 6 7 8\nB 0 0\nL 0 0\nU 0\n"),
        (b"", b"A 0 0 0 0\nB 0 0\nL 0 0\nU 0\n"),
        (
            b"\tL -9223372036854775808 9223372036854775807\r\n \n U\t18446744073709551615",
            b"A 0 0 0 0\nB 0 0\nL -9223372036854775808 9223372036854775807\nU 18446744073709551615\n",
        ),
        (
            b"B 4294967295 0\nA -2147483648 2147483647 -1 0",
            b"A -2147483648 2147483647 -1 0\nB 4294967295 0\nL 0 0\nU 0\n",
        ),
        (
            b"U 4\nL 4611686014132420609 -1\nB 1 2\nA 1 2 5 0\n",
            b"A 1 2 5 0\nB 1 2\nL 4611686014132420609 -1\nU 4\n",
        ),
    ];
    let unit = unit(rt.alloc())?;
    for (text, written) in texts {
        match read(rt.alloc(), &unit, text, 0) {
            Ok(arrays) => {
                let data = write_data(rt.alloc(), &unit, &arrays).or(Err("memory"))?;
                assert!(rt; data.as_slice() == written);
            }
            Err(refusal) => assert!(rt; false, "{refusal:?}"),
        }
    }
    Ok(())
}

#[test]
fn other_texts_are_refused(rt: HostRuntime) -> Result<(), Fail> {
    let texts: [(&[u8], u32, u32); 15] = [
        (b"A 5 6 7\n", 105, 112),
        (b"A 5 6", 105, 110),
        (b"A 5 x\n", 0, 4),
        (b"A 1 2 3 4 x", 9, 19),
        (b"A\n", 0, 1),
        (b"\nC 1", 7, 8),
        (b"A 1 2 3 4\nA 1 2 3 4", 0, 10),
        (b"B 4294967296 0", 0, 2),
        (b"B -1 0", 0, 2),
        (b"A -0 0 0 0", 0, 2),
        (b"A 1 02 0 0", 0, 4),
        (b"A 1\x0b2 3 4 5", 0, 2),
        (b"A 2147483648 0 0 0", 0, 2),
        (b"L 0 9223372036854775808", 4_194_281, 4_194_285),
        (b"%%\n", 0, 0),
    ];
    let unit = unit(rt.alloc())?;
    for (text, base, place) in texts {
        match read(rt.alloc(), &unit, text, base) {
            Ok(_) => assert!(rt; false, "{place}"),
            Err(refusal) => assert!(rt; refusal == DataRefusal::Syntax(place), "{place}"),
        }
    }
    Ok(())
}
