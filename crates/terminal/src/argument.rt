// A program's arguments, with a complaint where one will not do.
ghost use Rattle.std.specs.Prelude.{◌≡◌, IfOk, MatchResult};
ghost use Rattle.std.specs.Str.{IsUtf8};
ghost use Rattle.terminal.specs.Counts.{Counts};

use crate::complaint::Streams;
use crate::failure::Failure;
use numeral::{NumberError, natural, whole_number};
use std::env::FillError;
use std::rt::Env;
use std::{io, str};

// Whether there is an argument in that place. The program's name stands in place 0.
pub fn is_given(rt: &impl Env, place: usize) -> bool {
    let mut text = [0u8; 1];
    !matches!(rt.arg(place, &mut text), Err(FillError::NotPresent))
}

// Whether the argument in that place is this word.
pub fn is_word(rt: &impl Env, place: usize, word: &[u8]) -> bool {
    let mut text = [0u8; 16];
    match rt.arg(place, &mut text) {
        Ok(n) => &text[..n] == word,
        Err(_) => false,
    }
}

// Whether the argument in that place is a number.
pub fn is_number(rt: &impl Env, place: usize) -> bool {
    let mut text = [0u8; 4096];
    match rt.arg(place, &mut text) {
        Ok(n) => whole_number(&text[..n]) != Err(NumberError::NotANumber),
        Err(_) => false,
    }
}

// A name as std takes it, in UTF-8.
pub fn name_text(name: &[u8]) -> io::Result<&str>
    ensures { MatchResult result (λ text. text.now ≡ name.now) (λ _. ¬ (IsUtf8 name.now)) }
{
    str::from_utf8(name).map_err(|_| io::Error::from(io::ErrorKind::InvalidFilename))
}

impl Streams<'_> {
    // Complains where there are not from `least` to `most` arguments besides the program's name.
    pub fn count_arguments(
        self,
        rt: &impl Env,
        least: usize,
        most: usize,
        expected: &[u8],
    ) -> Result<(), Failure> {
        if !is_given(rt, least) {
            return Err(self.complain(b"too few arguments", expected));
        }
        if is_given(rt, most.saturating_add(1)) {
            return Err(self.complain(b"too many arguments", expected));
        }
        Ok(())
    }

    // Puts a path at the start of the text, and answers how many bytes it has: a count, here and below, as std's `read`, so that the buffer stays the caller's.
    pub fn path_argument(
        self,
        rt: &impl Env,
        place: usize,
        text: &mut [u8],
    ) -> Result<usize, Failure>
        ensures { IfOk result (λ n. Counts n text.new) }
    {
        // No contract says that there is an argument, so none can say when this is `Ok`.
        match rt.arg(place, text) {
            Ok(n) => Ok(n),
            Err(_) => Err(self.complain(b"FILE is too long", b"a path of at most 4095 bytes")),
        }
    }

    // A path as std takes it, in UTF-8, or a complaint: by other bytes std opens no file.
    pub fn path_text<'a>(self, path: &'a [u8]) -> Result<&'a str, Failure>
        ensures { MatchResult result (λ text. text.now ≡ path.now) (λ _. ¬ (IsUtf8 path.now)) }
    {
        self.or_complain(
            path,
            b"could not be opened; expected the file of a sheet",
            name_text(path),
        )
    }

    // The FILE in that place, whose path is put into the text.
    pub fn file_argument<'a>(
        self,
        rt: &impl Env,
        place: usize,
        text: &'a mut [u8],
    ) -> Result<&'a str, Failure> {
        let n = self.path_argument(rt, place, text)?;
        self.path_text(&text[..n])
    }

    // The number that an argument is, as `read` takes it.
    fn number_argument<N, F: FnOnce(&[u8]) -> Result<N, NumberError>>(
        self,
        rt: &impl Env,
        name: &[u8],
        place: usize,
        read: F,
        expected: &[u8],
    ) -> Result<N, Failure>
        requires { F.IsAlwaysCallable read }
    {
        let mut text = [0u8; 4096];
        let Ok(n) = rt.arg(place, &mut text) else {
            return Err(self.complain_of_argument(
                name,
                b"..",
                b"is too long",
                b"at most 4096 figures",
            ));
        };
        let wrong = match read(&text[..n]) {
            Ok(number) => return Ok(number),
            Err(NumberError::NotANumber) => b"is not a number".as_slice(),
            Err(NumberError::TooLarge) => b"is too large".as_slice(),
        };
        Err(self.complain_of_argument(name, &text[..n], wrong, expected))
    }

    pub fn natural_argument(
        self,
        rt: &impl Env,
        name: &[u8],
        place: usize,
    ) -> Result<u64, Failure> {
        self.number_argument(
            rt,
            name,
            place,
            natural,
            b"a whole number from 0 to 18446744073709551615",
        )
    }

    // The same with an optional minus sign.
    pub fn whole_argument(self, rt: &impl Env, name: &[u8], place: usize) -> Result<i64, Failure> {
        self.number_argument(
            rt,
            name,
            place,
            whole_number,
            b"a whole number from -9223372036854775808 to 9223372036854775807",
        )
    }

    // FILE and CLOCK, the first two arguments; whether FILE can be opened at all is looked at after CLOCK.
    pub fn clock_arguments<'a>(
        self,
        rt: &impl Env,
        text: &'a mut [u8],
    ) -> Result<(&'a str, usize), Failure> {
        let n = self.path_argument(rt, 1, text)?;
        let clock = self.natural_argument(rt, b"CLOCK", 2)?;
        Ok((self.path_text(&text[..n])?, clock as usize))
    }
}
