// Numbers read from text: figures, zeros before them allowed, and a minus sign before a negative one.
#![tactic(auto)]

ghost use Rattle.std.specs.Prelude.{◌≡◌, MatchResult};
ghost use Rattle.std.specs.Str.{IsUtf8};
ghost use Rattle.std.specs.Char.{is_ascii_digit};
ghost use Rattle.std.specs.List.{list_all};
ghost use Rattle.numeral.specs.Number.{HasFigures, unsigned, natural_of, whole_of};
ghost use Rattle.numeral.specs.declared.NumberError.TheVariants.{NotANumber};

use std::str;

// Why a text is no number: it is none, or it doesn't fit 64 bits.
#[derive(Clone, Copy, Debug, PartialEq, Eq)]
pub enum NumberError {
    NotANumber,
    TooLarge,
}

fn are_figures(text: &[u8]) -> bool
    ensures { result ≡ list_all is_ascii_digit text.now }
{
    text.iter().all(|b| b.is_ascii_digit())
}

// A text as std reads it, where this part of it is figures: by itself `parse` takes a plus sign too.
#[tactic(auto, using(crate::proofs::Figures::figures_test))]
fn with_figures<'a>(text: &'a [u8], part: &[u8]) -> Result<&'a str, NumberError>
    ensures { MatchResult result (λ s. (s.now ≡ text.now) × HasFigures part.now) (λ e. (e ≡ NotANumber) × ¬ (IsUtf8 text.now × HasFigures part.now)) }
{
    if part.is_empty() || !are_figures(part) {
        return Err(NumberError::NotANumber);
    }
    str::from_utf8(text).map_err(|_| NumberError::NotANumber)
}

#[tactic(auto, using(crate::proofs::Figures::natural_none))]
pub fn natural(text: &[u8]) -> Result<u64, NumberError>
    ensures { result ≡ natural_of text.now }
{
    let figures = with_figures(text, text)?;
    figures.parse::<u64>().map_err(|_| NumberError::TooLarge)
}

// A text without the minus sign before it.
fn unsigned(text: &[u8]) -> &[u8]
    ensures { result.now ≡ unsigned text.now }
{
    text.strip_prefix(&[line::MINUS]).unwrap_or(text)
}

#[tactic(auto, using(crate::proofs::Figures::whole_none))]
pub fn whole_number(text: &[u8]) -> Result<i64, NumberError>
    ensures { result ≡ whole_of text.now }
{
    let number = with_figures(text, unsigned(text))?;
    number.parse::<i64>().map_err(|_| NumberError::TooLarge)
}
