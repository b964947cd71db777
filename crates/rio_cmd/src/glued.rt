//! Words and bytes of punctuation that follow directly, without a blank before them.
ghost use Rattle.std.specs.Prelude.{◌≡◌, if◌then◌else◌};
ghost use Rattle.std.specs.Option.{option_copied};
ghost use Rattle.rio_num.specs.Reading.{Takes};
ghost use Rattle.rio_token.specs.Tokens.{behind};
ghost use Rattle.rio_step.specs.TreeGrammar.{glued_mark_at, glued_word, is_glued_mark};

use rio_token::{TextFault, Token, Tokens};

/// The next token, where it is a word that follows directly.
pub(crate) fn peek_glued_word<'a>(tokens: &Tokens<'a>) -> Option<&'a [u8]>
    ensures { option_copied result ≡ glued_word tokens.now }
{
    if tokens.is_glued() {
        tokens.peek_word()
    } else {
        None
    }
}

/// Whether this byte of punctuation follows directly.
pub(crate) fn is_glued_mark(tokens: &Tokens, mark: u8) -> bool
    ensures { result ≡ is_glued_mark mark tokens.now }
{
    match tokens.peek() {
        Token::Mark(next) => next == mark && tokens.is_glued(),
        _ => false,
    }
}

/// Passes over this byte of punctuation, if it follows directly.
pub(crate) fn take_glued_mark(tokens: &mut Tokens, mark: u8) -> bool
    ensures value { result ≡ is_glued_mark mark tokens.old }
    ensures state { tokens.new ≡ (if result then behind tokens.old else tokens.old) }
{
    if is_glued_mark(tokens, mark) {
        tokens.pass();
        true
    } else {
        false
    }
}

/// Passes over this byte of punctuation, which must follow directly.
#[tactic(auto, unfolding(rio_step::specs::TreeGrammar::glued_mark_at))]
pub(crate) fn expect_glued_mark(tokens: &mut Tokens, mark: u8) -> Result<(), TextFault>
    ensures { Takes (λ _. tt) result (glued_mark_at mark tokens.old) tokens.old tokens.new }
{
    if take_glued_mark(tokens, mark) {
        Ok(())
    } else {
        Err(tokens.bad())
    }
}
