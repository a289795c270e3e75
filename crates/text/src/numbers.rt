// A number as a word of a text.
ghost use Rattle.std.specs.Prelude.{◌≡◌, ℕ, ◌<◌, List, ◌∷◌, ◌++◌, length, MatchOption};
ghost use Rattle.text.specs.Words.{Finds, Visible, NoSpace, Before, Both, Number, Kind, Word};
ghost use Rattle.text.specs.Numerals.{NoPlus, Parsed, word_parsed, word_visible, word_filled, word_sole, number_parsed, number_visible, number_filled, number_sole, kind_parsed, kind_visible, kind_filled, kind_sole};

use std::num::ParseIntError;
use std::str::FromStr;

// A number that is written in digits.
pub trait Numeral: FromStr<Err = ParseIntError> {
    // Holds of a number and the bytes of each text that writes it.
    ghost writes: { Self → List ℕ → Type 0 };

    // A text with no plus sign before it is parsed as the number that it writes, if it writes one.
    ghost parsed: { (bs : List ℕ) (r : _) → Self.from_str_gives bs r → NoPlus bs → Parsed r writes bs };

    // No number is written with a plus sign before it.
    ghost no_plus: { (n : Self) (bs : List ℕ) → writes n bs → NoPlus bs };

    // A number is written in visible characters.
    ghost visible: { (n : Self) (bs : List ℕ) → writes n bs → Visible bs };

    // No number is written by an empty text.
    ghost filled: { (n : Self) (bs : List ℕ) → writes n bs → 0 < length bs };

    // A text writes one number.
    ghost sole: { (m n : Self) (bs : List ℕ) → writes m bs → writes n bs → m ≡ n };
}

// Digits, with at most one minus sign before them.
impl Numeral for i32 {
    ghost writes = { Word };

    ghost parsed = { λ bs r h. word_parsed bs r h.0 };

    ghost no_plus = { λ z bs w. w.no_plus };

    ghost visible = { word_visible };

    ghost filled = { word_filled };

    ghost sole = { word_sole };
}

// Digits alone.
impl Numeral for u32 {
    ghost writes = { Number };

    ghost parsed = { λ bs r h. number_parsed bs r h.0 };

    ghost no_plus = { λ n bs w. w.no_plus };

    ghost visible = { number_visible };

    ghost filled = { number_filled };

    ghost sole = { number_sole };
}

// Digits alone, of a number that 16 bits hold.
impl Numeral for u16 {
    ghost writes = { Kind };

    ghost parsed = { λ bs r h. kind_parsed bs r h.0 };

    ghost no_plus = { λ n bs w. w.0.no_plus };

    ghost visible = { kind_visible };

    ghost filled = { kind_filled };

    ghost sole = { kind_sole };
}

// The number that the text writes.
pub fn number<T: Numeral>(text: &str) -> Option<T>
    ensures { Finds result (λ n. T.writes n text.now) }
{
    match text.as_bytes() {
        [b'+', ..] => None,
        _ => text.parse::<T>().ok(),
    }
}

// The text before the first space, and the text after it.
pub fn cut(text: &str) -> Option<(&str, &str)>
    ensures { MatchOption result (NoSpace text.now) (λ x. (text.now ≡ x.0.now ++ (32 ∷ x.1.now)) × NoSpace x.0.now) }
{
    text.split_once(' ')
}

// The number before the first space, and the text after it.
pub fn first<T: Numeral>(text: &str) -> Option<(T, &str)>
    ensures { MatchOption result ((n : T) (rest : List ℕ) → Before (T.writes n) rest text.now → ⊥) (λ x. Before (T.writes x.0) x.1.now text.now) }
{
    let (front, rest) = cut(text)?;
    Some((number(front)?, rest))
}

// Two numbers, one space apart.
pub fn two<A: Numeral + Drop, B: Numeral>(text: &str) -> Option<(A, B)>
    ensures { Finds result (λ x. Both (A.writes x.0) (B.writes x.1) text.now) }
{
    let (a, rest) = first(text)?;
    Some((a, number(rest)?))
}
