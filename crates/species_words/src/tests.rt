use super::{Command, Usage, read_words};
use std::alloc::Global;
use std::test::Fail;

/// The words of a command line that are parted by one blank each.
fn words(alloc: Global, line: &str) -> Result<Vec<String>, Fail> {
    let mut words = Vec::new(alloc);
    for word in line.split(' ') {
        words.push(String::from_str(alloc, word)?)?;
    }
    Ok(words)
}

#[test]
fn command_lines_are_read(rt: HostRuntime) -> Result<(), Fail> {
    let lines: [(&str, Result<Command, Usage>); 16] = [
        ("species arcs", Ok(Command::Arcs)),
        ("arcs annotate", Ok(Command::Annotate)),
        ("species compile", Ok(Command::Compile)),
        ("species check", Ok(Command::Check)),
        ("species run", Ok(Command::Run { trace: false })),
        ("species run --trace", Ok(Command::Run { trace: true })),
        (
            "species drill --nests 10000 --from 0",
            Ok(Command::Drill {
                nests: 10000,
                from: 0,
            }),
        ),
        (
            "species drill --from 4294967295 --nests 1",
            Ok(Command::Drill {
                nests: 1,
                from: 4_294_967_295,
            }),
        ),
        ("species", Err(Usage)),
        ("species drill --nests 0 --from 0", Err(Usage)),
        ("species drill --nests 01 --from 0", Err(Usage)),
        ("species drill --nests 1", Err(Usage)),
        ("species run --trace --trace", Err(Usage)),
        ("species compile --trace", Err(Usage)),
        ("species drill --nests=5 --from 0", Err(Usage)),
        ("species --help", Err(Usage)),
    ];
    for (line, command) in lines {
        let words = words(rt.alloc(), line)?;
        assert_eq!(rt; read_words(words.as_slice()), command, "{line}");
    }
    Ok(())
}
