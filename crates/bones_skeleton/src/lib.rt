//! Skeletons: for the words of a nest's arcs a schedule, and a template of the emitted text.
#![tactic(auto)]

ghost use Rattle.std.specs.Prelude.{◌≡◌, IfOk};
ghost use Rattle.bones_skeleton.specs.Skeletons.{is_word, is_among, chosen, schedule_of, template_text};

use bones_template::{Template, TemplateRefusal};
use species_arcs::Word;
use species_ast::{OutOfMemory, Schedule};
use std::alloc::Global;

/// A form of parallel loop.
#[derive(Clone, Copy, Debug, PartialEq, Eq)]
pub enum Skeleton {
    Element,
    Neighbourhood,
    Chunk,
    Full,
    Shared,
}

/// The skeleton of a nest whose arcs have these words.
pub fn choose(words: &[Word]) -> Skeleton
    ensures { result ≡ chosen words.now }
{
    if is_among(words, Word::Shared) {
        Skeleton::Shared
    } else if is_among(words, Word::Neighbourhood) {
        Skeleton::Neighbourhood
    } else if is_among(words, Word::Chunk) {
        Skeleton::Chunk
    } else if is_among(words, Word::Full) {
        Skeleton::Full
    } else {
        Skeleton::Element
    }
}

fn is_among(words: &[Word], word: Word) -> bool
    ensures { result ≡ is_among words.now word }
{
    words.iter().any(|other| is_word(word, *other))
}

fn is_word(word: Word, other: Word) -> bool
    ensures { result ≡ is_word word other }
{
    match (word, other) {
        (Word::Element, Word::Element) => true,
        (Word::Neighbourhood, Word::Neighbourhood) => true,
        (Word::Chunk, Word::Chunk) => true,
        (Word::Full, Word::Full) => true,
        (Word::Shared, Word::Shared) => true,
        _ => false,
    }
}

pub fn schedule_of(s: Skeleton) -> Schedule
    ensures { result ≡ schedule_of s }
{
    match s {
        Skeleton::Element => Schedule::Static,
        Skeleton::Neighbourhood => Schedule::StaticBy(64),
        Skeleton::Chunk => Schedule::StaticBy(1),
        Skeleton::Full => Schedule::Guided,
        Skeleton::Shared => Schedule::DynamicBy(64),
    }
}

pub fn template_of(alloc: Global, s: Skeleton) -> Result<Template, OutOfMemory>
    ensures { IfOk result (λ template. template ≡ template_text s) }
{
    match Template::new(alloc, template_text(s)) {
        Ok(template) => Ok(template),
        Err(TemplateRefusal::Memory) => Err(OutOfMemory),
        Err(TemplateRefusal::Lacks(_)) => unreachable!(),
    }
}

fn template_text(s: Skeleton) -> &'static [u8]
    ensures { result.now ≡ template_text s }
{
    match s {
        Skeleton::Element =>
            b"<indent>#pragma species <species>\n<indent>#pragma omp parallel for<collapse> schedule(static)\n<loop>\n",
        Skeleton::Neighbourhood =>
            b"<indent>#pragma species <species>\n<indent>#pragma omp parallel for<collapse> schedule(static, 64)\n<loop>\n",
        Skeleton::Chunk =>
            b"<indent>#pragma species <species>\n<indent>#pragma omp parallel for<collapse> schedule(static, 1)\n<loop>\n",
        Skeleton::Full =>
            b"<indent>#pragma species <species>\n<indent>#pragma omp parallel for<collapse> schedule(guided)\n<loop>\n",
        Skeleton::Shared =>
            b"<indent>#pragma species <species>\n<indent>#pragma omp parallel for<collapse> schedule(dynamic, 64)\n<loop>\n",
    }
}

#[cfg(test)]
mod tests {
    use super::{Skeleton, choose, schedule_of, template_of};
    use bones_template::{Holes, fill};
    use species_arcs::Word;
    use species_ast::Schedule;
    use std::test::Fail;

    #[test]
    fn the_first_word_in_order_decides(rt: HostRuntime) {
        let rows: [(&[Word], Skeleton, Schedule); 6] = [
            (&[], Skeleton::Element, Schedule::Static),
            (
                &[Word::Element, Word::Full],
                Skeleton::Full,
                Schedule::Guided,
            ),
            (
                &[Word::Full, Word::Chunk],
                Skeleton::Chunk,
                Schedule::StaticBy(1),
            ),
            (
                &[Word::Chunk, Word::Neighbourhood],
                Skeleton::Neighbourhood,
                Schedule::StaticBy(64),
            ),
            (
                &[Word::Neighbourhood, Word::Shared],
                Skeleton::Shared,
                Schedule::DynamicBy(64),
            ),
            (&[Word::Element], Skeleton::Element, Schedule::Static),
        ];
        for (words, skeleton, schedule) in rows {
            assert_eq!(rt; choose(words), skeleton);
            assert_eq!(rt; schedule_of(skeleton), schedule);
        }
    }

    #[test]
    fn a_template_is_filled(rt: HostRuntime) -> Result<(), Fail> {
        let holes = Holes {
            indent: Vec::from_slice(rt.alloc(), b"    ")?,
            species: Vec::from_slice(rt.alloc(), b"none -> none")?,
            collapse: Vec::from_slice(rt.alloc(), b" collapse(2)")?,
            loop_text: Vec::from_slice(rt.alloc(), b"    for (;;) {\n    }")?,
        };
        let template = template_of(rt.alloc(), Skeleton::Shared).or(Err("memory"))?;
        let text = fill(rt.alloc(), &template, &holes).or(Err("memory"))?;
        let wanted =
            b"    #pragma species none -> none\n    #pragma omp parallel for collapse(2) schedule(dynamic, 64)\n    for (;;) {\n    }\n";
        assert!(rt; text.as_slice() == wanted.as_slice());
        Ok(())
    }
}
