//! The lines of refused programs.
ghost use Rattle.std.specs.Prelude.{◌≡◌, ◌++◌, Some, IfOk, OnOk, codes, decimal};
ghost use Rattle.std.specs.Option.{option_map};
ghost use Rattle.species_names.specs.Refused.{limit_seen};
ghost use Rattle.species_scope.specs.Answers.{finding_of};
ghost use Rattle.species_cli.specs.Refusals.{refused_text, place_text, refused_line, limit_name, finding_line, lex_line, text_line, refusal_line};

use itoa::Buffer;
use species_ast::{LexRefusal, OutOfMemory};
use species_names::Limit;
use species_parser::ReadRefusal;
use species_reading::ProgramRefusal;
use species_scope::ScopeRefusal;
use std::alloc::Global;

/// The line of a refusal of this number and name.
pub(crate) fn refused(
    alloc: Global,
    number: u32,
    name: &[u8],
    place: u32,
) -> Result<Vec<u8>, OutOfMemory>
    ensures { IfOk result (λ line. line.items ≡ refused_line number name.now place) }
{
    let mut line = Vec::new(alloc);
    put_refused(number, name, &mut line)?;
    put_place(place, &mut line)?;
    Ok(line)
}

fn put_refused(number: u32, name: &[u8], line: &mut Vec<u8>) -> Result<(), OutOfMemory>
    ensures { OnOk result (line.new.items ≡ line.old.items ++ refused_text number name.now) }
{
    line.extend_from_slice(b"refused ")?;
    put_count(number, line)?;
    line.extend_from_slice(b" ")?;
    line.extend_from_slice(name)?;
    Ok(())
}

fn put_place(place: u32, line: &mut Vec<u8>) -> Result<(), OutOfMemory>
    ensures { OnOk result (line.new.items ≡ line.old.items ++ place_text place) }
{
    line.extend_from_slice(b" at ")?;
    put_count(place, line)?;
    line.extend_from_slice(b"\n")?;
    Ok(())
}

fn put_count(count: u32, text: &mut Vec<u8>) -> Result<(), OutOfMemory>
    ensures { OnOk result (text.new.items ≡ text.old.items ++ decimal count) }
{
    let mut buffer = Buffer::new();
    text.extend_from_slice(buffer.format(count).as_bytes())?;
    Ok(())
}

fn limit_name(limit: Limit) -> &'static [u8]
    ensures { result.now ≡ limit_name (limit_seen limit) }
{
    match limit {
        Limit::Loops => b"LimitPassed(Loops)",
        Limit::Dims => b"LimitPassed(Dims)",
        Limit::Elements => b"LimitPassed(Elements)",
        Limit::References => b"LimitPassed(References)",
        Limit::Hull => b"LimitPassed(Hull)",
        Limit::Step => b"LimitPassed(Step)",
        Limit::Bound => b"LimitPassed(Bound)",
    }
}

fn lex_line(alloc: Global, refusal: LexRefusal) -> Result<Vec<u8>, OutOfMemory>
    ensures { IfOk result (λ line. line.items ≡ lex_line refusal) }
{
    match refusal {
        LexRefusal::BadByte(place) => refused(alloc, 1, b"BadByte", place),
        LexRefusal::BadNumber(place) => refused(alloc, 2, b"BadNumber", place),
        LexRefusal::OpenComment(place) => refused(alloc, 3, b"OpenComment", place),
    }
}

fn text_line(alloc: Global, refusal: ReadRefusal) -> Result<Vec<u8>, OutOfMemory>
    ensures { IfOk result (λ line. text_line refusal ≡ Some line.items) }
{
    match refusal {
        ReadRefusal::Lex(lex) => lex_line(alloc, lex),
        ReadRefusal::Load(place) => refused(alloc, 12, b"LimitPassed(Load)", place),
        ReadRefusal::Syntax(place) => refused(alloc, 4, b"Syntax", place),
        ReadRefusal::Memory => Err(OutOfMemory),
    }
}

fn scope_line(alloc: Global, refusal: ScopeRefusal) -> Result<Vec<u8>, OutOfMemory>
    ensures { IfOk result (λ line. option_map finding_line (finding_of refusal) ≡ Some line.items) }
{
    match refusal {
        ScopeRefusal::Unknown(place) => refused(alloc, 5, b"Unknown", place),
        ScopeRefusal::Duplicate(place) => refused(alloc, 6, b"Duplicate", place),
        ScopeRefusal::DimensionCount(place) => refused(alloc, 7, b"DimensionCount", place),
        ScopeRefusal::IteratorAssigned(place) => refused(alloc, 8, b"IteratorAssigned", place),
        ScopeRefusal::IteratorOutside(place) => refused(alloc, 9, b"IteratorOutside", place),
        ScopeRefusal::NotStatic(place) => refused(alloc, 10, b"NotStatic", place),
        ScopeRefusal::BadStep(place) => refused(alloc, 11, b"BadStep", place),
        ScopeRefusal::Limit(limit, place) => refused(alloc, 12, limit_name(limit), place),
        ScopeRefusal::BadMark(place) => refused(alloc, 13, b"BadMark", place),
        ScopeRefusal::Memory => Err(OutOfMemory),
    }
}

/// The line of a program that is not read, where it has one.
pub(crate) fn line_of(alloc: Global, refusal: ProgramRefusal) -> Result<Vec<u8>, OutOfMemory>
    ensures { IfOk result (λ line. refusal_line refusal ≡ Some line.items) }
{
    match refusal {
        ProgramRefusal::Read(text) => text_line(alloc, text),
        ProgramRefusal::Scope(scope) => scope_line(alloc, scope),
        ProgramRefusal::Memory => Err(OutOfMemory),
    }
}
