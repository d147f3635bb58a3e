//! Refusals of a piece of text.
ghost use Rattle.std.specs.Prelude.{◌≡◌, ◌<◌, ◌≤◌, ◌^◌, ◌+◌};
ghost use Rattle.species_ast.specs.declared.token.LexRefusal.TheVariants.{BadByte, BadNumber, OpenComment};
ghost use Rattle.species_lexer.specs.Offset.{offset_in};
ghost use Rattle.species_ast.specs.Text.Stream.{moved};

use species_ast::LexRefusal;

/// A refusal whose place counts from the first byte of a piece of text.
#[derive(Clone, Copy)]
pub(crate) struct Fault {
    pub refusal: LexRefusal,
    ghost near: { offset_in refusal < 2 ^ 24 },
}

impl Fault {
    pub fn bad_byte(at: u32) -> Fault
        requires { at < 2 ^ 24 }
        ensures { result.refusal ≡ BadByte at }
    {
        Fault {
            refusal: LexRefusal::BadByte(at),
        }
    }

    pub fn bad_number(at: u32) -> Fault
        requires { at < 2 ^ 24 }
        ensures { result.refusal ≡ BadNumber at }
    {
        Fault {
            refusal: LexRefusal::BadNumber(at),
        }
    }

    pub fn open_comment(at: u32) -> Fault
        requires { at < 2 ^ 24 }
        ensures { result.refusal ≡ OpenComment at }
    {
        Fault {
            refusal: LexRefusal::OpenComment(at),
        }
    }

    /// The refusal with its place in the program, where the piece stands at this place.
    pub fn at(self, place: u32) -> LexRefusal
        requires { place ≤ 2 ^ 24 }
        ensures { result ≡ moved place self.refusal }
    {
        match self.refusal {
            LexRefusal::BadByte(at) => LexRefusal::BadByte(place + at),
            LexRefusal::BadNumber(at) => LexRefusal::BadNumber(place + at),
            LexRefusal::OpenComment(at) => LexRefusal::OpenComment(place + at),
        }
    }
}
