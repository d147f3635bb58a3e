use super::{Hole, Holes, Template, TemplateRefusal, fill};
use std::alloc::Global;
use std::test::Fail;

fn holes(alloc: Global) -> Result<Holes, Fail> {
    Ok(Holes {
        indent: Vec::from_slice(alloc, b"  ")?,
        species: Vec::from_slice(alloc, b"none -> <loop>")?,
        collapse: Vec::new(alloc),
        loop_text: Vec::from_slice(alloc, b"for")?,
    })
}

#[test]
fn holes_are_filled(rt: HostRuntime) -> Result<(), Fail> {
    let text = b"<indent>#p <species>\n<indent>#q<collapse>\n<<loop><lop>\n";
    let holes = holes(rt.alloc())?;
    match Template::new(rt.alloc(), text) {
        Ok(template) => {
            let filled = fill(rt.alloc(), &template, &holes).or(Err("memory"))?;
            let wanted = b"  #p none -> <loop>\n  #q\n<for<lop>\n";
            assert!(rt; filled.as_slice() == wanted.as_slice());
        }
        Err(refusal) => assert!(rt; false, "{refusal:?}"),
    }
    Ok(())
}

#[test]
fn lacking_holes_are_named(rt: HostRuntime) {
    let texts: [(&[u8], Hole); 6] = [
        (b"<species><collapse><loop>", Hole::Indent),
        (b"<indent><collapse><loop>", Hole::Species),
        (b"<indent><species><species>", Hole::Species),
        (b"<indent><species><loop>", Hole::Collapse),
        (b"<indent><species><collapse><loop", Hole::Loop),
        (b"<loop><collapse><species><indent><loop>", Hole::Loop),
    ];
    for (text, hole) in texts {
        match Template::new(rt.alloc(), text) {
            Ok(_) => assert!(rt; false, "{hole:?}"),
            Err(refusal) => assert!(rt; refusal == TemplateRefusal::Lacks(hole), "{hole:?}"),
        }
    }
}
