//! What a directive can be.
use crate::fault::Fault;
use crate::parts::Part;
use species_ast::TokenKind;

/// What a directive is.
#[derive(Clone, Copy)]
pub(crate) enum Form<'a> {
    /// Nothing, or a pragma that is not read.
    Skipped,
    /// A token, by its text and what it is.
    Read(&'a [u8], TokenKind),
    /// A `#define` of a name as a number.
    Macro(&'a [u8], Part<'a>),
    Wrong(Fault),
}

impl<'a> Form<'a> {
    ghost use Rattle.std.specs.Prelude.{◌≡◌};
    ghost use Rattle.species_ast.specs.Text.Directives.{formless};
    ghost use Rattle.species_lexer.specs.Forms.{seen_form};

    /// A directive of no form, which is refused at its `#`.
    pub fn formless() -> Form<'a>
        ensures { seen_form result ≡ formless }
    {
        Form::Wrong(Fault::bad_byte(0))
    }
}
