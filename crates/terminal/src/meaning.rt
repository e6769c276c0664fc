// What refusals mean.
use reply::Cause;

// The words of README.md for a refusal.
pub fn meaning(cause: Cause) -> &'static [u8] {
    match cause {
        Cause::Missing => b"fewer bytes remain than the field has",
        Cause::Beyond =>
            b"the sheet is longer than 32768 bytes, or a count, length, k, K, l or n is beyond its limit",
        Cause::Unknown => b"a bit or a state is neither 0 nor 1, or a tag is unknown",
        Cause::NoOne => b"the period of a word has no 1",
        Cause::Absent => b"a word, an earlier clock or a link's end that isn't there",
        Cause::TooDeep => b"an expression is nested deeper than 12",
        Cause::Empty => b"no stream lies in a declared envelope",
        Cause::FullRate => b"not of a clock of full rate, which would never tick",
        Cause::Outgrown => b"not or on gives l, k or K beyond the limits",
        Cause::Trailing => b"bytes follow the last link",
        Cause::ShortResult => b"the room that was lent for the result is too short",
        Cause::NoEnvelope =>
            b"k, K, l or n is beyond its limit, k is below 0 at l = n = 1, l and n are not in lowest terms, or no stream lies in the envelope",
        Cause::LongPattern => b"the pattern is longer than 4096",
        Cause::NotABit => b"a byte of the pattern is neither 0 nor 1",
        Cause::Outside => b"the pattern lies outside the envelope",
        Cause::NoClock => b"there is no such clock",
        Cause::AlreadyClosed => b"the clock is closed already",
    }
}
