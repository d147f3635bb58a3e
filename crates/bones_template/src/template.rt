ghost use Rattle.std.specs.Prelude.{◌≡◌, ◌≤◌, None, Some, Err, length, IfOk, OnOk, IfSome};
ghost use Rattle.bones_template.specs.Holes.{hole_text, contents_of};
ghost use Rattle.bones_template.specs.Filling.{hole_at, count_in, lacking, Becomes, filled_of};

use crate::hole::{Hole, Holes};
use species_ast::OutOfMemory;
use std::alloc::{AllocError, AllocFailed, Global};
use std::marker::Model;

/// A text in which the indentation is left open at least once, and every other hole once.
#[derive(Debug, Drop)]
pub struct Template {
    text: Vec<u8>,
}

impl Model for Template {
    ghost use Rattle.std.specs.Prelude.{List, ℕ};

    ghost Value = { List ℕ };

    ghost view = { λ template. template.text.items };
}

/// Why a text is no template.
#[derive(Clone, Copy, Debug, PartialEq, Eq)]
pub enum TemplateRefusal {
    /// The first hole that the text has too seldom or too often.
    Lacks(Hole),
    Memory,
}

impl From<AllocError> for TemplateRefusal {
    ghost use Rattle.std.specs.Prelude.{◌≡◌};
    ghost use Rattle.bones_template.specs.declared.template.TemplateRefusal.TheVariants.{Memory};

    ghost from_gives = { λ _ e. e ≡ Memory };

    fn from(_: AllocError) -> TemplateRefusal {
        TemplateRefusal::Memory
    }
}

impl<T: Drop> From<AllocFailed<T>> for TemplateRefusal {
    ghost use Rattle.std.specs.Prelude.{◌≡◌};
    ghost use Rattle.bones_template.specs.declared.template.TemplateRefusal.TheVariants.{Memory};

    ghost from_gives = { λ _ e. e ≡ Memory };

    fn from(_: AllocFailed<T>) -> TemplateRefusal {
        TemplateRefusal::Memory
    }
}

impl Template {
    pub fn new(alloc: Global, text: &[u8]) -> Result<Template, TemplateRefusal>
        ensures ok { IfOk result (λ template. template ≡ text.now) }
        ensures whole { OnOk result (lacking text.now ≡ None) }
        ensures lacks { (hole : Hole) → result ≡ Err (TemplateRefusal.Lacks hole) → lacking text.now ≡ Some hole }
        ensures refused { (hole : Hole) → lacking text.now ≡ Some hole → result ≡ Err (TemplateRefusal.Lacks hole) }
    {
        match lacking(text) {
            Some(hole) => Err(TemplateRefusal::Lacks(hole)),
            None => Ok(Template {
                text: Vec::from_slice(alloc, text)?,
            }),
        }
    }
}

/// The template's text with each hole replaced by its bytes.
pub fn fill(alloc: Global, template: &Template, holes: &Holes) -> Result<Vec<u8>, OutOfMemory>
    ensures becomes { IfOk result (λ v. Becomes (contents_of holes.now) template.now v.items) }
    ensures value { IfOk result (λ v. v.items ≡ filled_of (contents_of holes.now) template.now) }
{
    let text = template.text.as_slice();
    let mut filled = Vec::new(alloc);
    let mut at = 0;
    while at < text.len() {
        match hole_at(&text[at..]) {
            Some(hole) => {
                filled.extend_from_slice(holes.text_for(hole))?;
                at += hole.text().len();
            }
            None => {
                filled.push(text[at])?;
                at += 1;
            }
        }
    }
    Ok(filled)
}

/// The hole at the front.
fn hole_at(text: &[u8]) -> Option<Hole>
    ensures value { result ≡ hole_at text.now }
    ensures within { IfSome result (λ hole. length (hole_text hole) ≤ length text.now) }
{
    if text.starts_with(b"<indent>") {
        Some(Hole::Indent)
    } else if text.starts_with(b"<species>") {
        Some(Hole::Species)
    } else if text.starts_with(b"<collapse>") {
        Some(Hole::Collapse)
    } else if text.starts_with(b"<loop>") {
        Some(Hole::Loop)
    } else {
        None
    }
}

/// How often the hole stands in the text.
fn count_in(hole: Hole, text: &[u8]) -> usize
    ensures { result ≡ count_in hole text.now }
{
    let mut count = 0;
    for at in 0..text.len() {
        count += usize::from(text[at..].starts_with(hole.text()));
    }
    count
}

/// The first hole that the text has too seldom or too often.
fn lacking(text: &[u8]) -> Option<Hole>
    ensures { result ≡ lacking text.now }
{
    if !Hole::Indent.is_as_often(count_in(Hole::Indent, text)) {
        Some(Hole::Indent)
    } else if !Hole::Species.is_as_often(count_in(Hole::Species, text)) {
        Some(Hole::Species)
    } else if !Hole::Collapse.is_as_often(count_in(Hole::Collapse, text)) {
        Some(Hole::Collapse)
    } else if !Hole::Loop.is_as_often(count_in(Hole::Loop, text)) {
        Some(Hole::Loop)
    } else {
        None
    }
}
