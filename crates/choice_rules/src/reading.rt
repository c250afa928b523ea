//! How the text of a pattern is read, and its canonical text.

ghost use Rattle.std.specs.Prelude.{◌≡◌, ◌++◌, List, Err, Some, IfOk, OnOk, string_bytes};
ghost use Rattle.choice_rules.specs.declared.pattern.Piece.{Piece};
ghost use Rattle.choice_rules.specs.Patterns.{Spells, pattern_of, piece_text, pattern_text, Reads, ReadsOne};

use crate::matching::split_first;
use crate::pattern::{Pattern, Piece};
use std::alloc::{AllocError, AllocFailed, Global};
use unum_json::{NoMemory, Text};

/// Why a text gave no pattern.
#[derive(Clone, Copy, Debug, PartialEq, Eq)]
pub enum PatternError {
    /// The last backslash has no character after it that it could make literal.
    LoneBackslash,
    /// Memory ran out.
    NoMemory,
}

impl<T: Drop> From<AllocFailed<T>> for PatternError {
    ghost use Rattle.std.specs.Prelude.{◌≡◌};
    ghost use Rattle.choice_rules.specs.declared.reading.PatternError.TheVariants.{NoMemory};

    ghost from_gives = { λ _ e. e ≡ NoMemory };

    fn from(_refused: AllocFailed<T>) -> PatternError {
        PatternError::NoMemory
    }
}

/// Adds the piece that a character is, and says whether the next one is to be literal.
fn read_one(pieces: &mut Vec<Piece>, escaped: bool, first: char) -> Result<bool, PatternError>
    ensures { ReadsOne result pieces.old.items escaped first pieces.new.items }
{
    if escaped {
        pieces.push(Piece::Literal(first))?;
        return Ok(false);
    }
    if first == '*' {
        pieces.push(Piece::Star)?;
        return Ok(false);
    }
    if first == '\\' {
        return Ok(true);
    }
    pieces.push(Piece::Literal(first))?;
    Ok(false)
}

/// Adds the canonical text of a piece.
fn push_piece(out: &mut String, piece: &Piece) -> Result<(), AllocError>
    ensures { OnOk result (string_bytes out.new ≡ string_bytes out.old ++ piece_text piece.now) }
{
    match *piece {
        Piece::Star => out.push_str("*"),
        Piece::Literal(literal) => {
            if literal == '*' || literal == '\\' {
                out.push_str("\\")?;
            }
            out.push(literal)
        }
    }
}

fn spelled(alloc: Global, pieces: &[Piece]) -> Result<String, AllocError>
    ensures { IfOk result (λ t. string_bytes t ≡ pattern_text pieces.now) }
{
    let mut out = String::new(alloc);
    for piece in pieces {
        push_piece(&mut out, piece)?;
    }
    Ok(out)
}

impl Pattern {
    /// The pattern that a text spells: `*` is a star, and a backslash makes the next character literal.
    ///
    /// `LoneBackslash` comes exactly where the last backslash has no character after it, unless memory runs out.
    pub fn read(alloc: Global, text: &str) -> Result<Pattern, PatternError>
        ensures read { Reads result (pattern_of text.now) }
        ensures spelled { IfOk result (λ pattern. Spells pattern text.now) }

        // A text that spells a pattern gives that pattern, and no other.
        ensures same { (pieces : List Piece) → Spells pieces text.now → IfOk result (λ pattern. pattern ≡ pieces) }
        ensures lone { result ≡ Err PatternError.LoneBackslash → (pieces : List Piece) → ¬ (Spells pieces text.now) }
    {
        let mut pieces = Vec::new(alloc);
        let mut escaped = false;
        let mut left = text;
        while let Some((first, rest)) = split_first(left) {
            escaped = read_one(&mut pieces, escaped, first)?;
            left = rest;
        }
        if escaped {
            return Err(PatternError::LoneBackslash);
        }
        Ok(Pattern::from_pieces(pieces))
    }

    /// The canonical text, which has a backslash before `*` and `\` alone.
    pub fn spell(&self, alloc: Global) -> Result<Text, NoMemory>
        ensures canonical { IfOk result (λ t. t ≡ pattern_text self.now) }
        ensures reads_back { IfOk result (λ t. pattern_of t ≡ Some self.now) }
    {
        let text = spelled(alloc, self.pieces())?;
        Ok(Text::from_string(text)?)
    }
}
