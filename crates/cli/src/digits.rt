ghost use Rattle.std.specs.Prelude.{Ok, Err, MatchOption};
ghost use Rattle.std.specs.List.{All};
ghost use Rattle.std.specs.Char.{IsAsciiDigit};

use std::num::ParseIntError;
use std::str::FromStr;

/// The number that a word of digits stands for. `parse` takes a sign, too.
pub fn number<N: FromStr<Err = ParseIntError>>(word: &str) -> Option<N>
    ensures { MatchOption result
        (All IsAsciiDigit word.now → (e : _) × N.from_str_gives word.now (Err e))
        (λ n. All IsAsciiDigit word.now × N.from_str_gives word.now (Ok n)) }
{
    if !word.bytes().all(|byte| byte.is_ascii_digit()) {
        return None;
    }
    match word.parse() {
        Ok(number) => Some(number),
        // No digit at all, or a number that is too large.
        Err(_) => None,
    }
}
