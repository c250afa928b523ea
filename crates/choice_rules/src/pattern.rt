//! Patterns of texts.

ghost use Rattle.std.specs.Prelude.{◌≡◌, []};
ghost use Rattle.choice_rules.specs.PatternTexts.{IsPattern};

use std::alloc::Global;
use std::marker::Model;

/// One piece of a pattern.
#[derive(Clone, Copy, Debug, PartialEq, Eq)]
pub enum Piece {
    /// This character.
    Literal(char),
    /// Any run of characters.
    Star,
}

/// A list of pieces, which a text is to match from its start to its end. Its canonical text reads as it.
#[derive(Debug, Drop)]
pub struct Pattern {
    pieces: Vec<Piece>,
}

impl Model for Pattern {
    ghost use Rattle.std.specs.Prelude.{List};
    ghost use Rattle.std.specs.Coded.{coded_list};
    ghost use Rattle.choice_rules.specs.declared.pattern.Piece.{Piece};
    ghost use Rattle.choice_rules.specs.contracts.pattern.Piece as one;
    ghost use Rattle.choice_rules.specs.PatternTexts.{IsPattern};

    ghost Value = { List Piece };

    ghost coded = { coded_list one.the_row.coded };

    ghost view = { λ p. p.pieces.items };

    ghost invariant = { λ p. IsPattern p.pieces.items };
}

impl Pattern {
    /// The pattern of no piece, which the empty text alone matches.
    pub fn empty(alloc: Global) -> Pattern
        ensures { result ≡ [] }
    {
        Pattern {
            pieces: Vec::new(alloc),
        }
    }

    /// The pattern of these pieces, which some text spells.
    pub(crate) fn from_pieces(pieces: Vec<Piece>) -> Pattern
        requires { IsPattern pieces.items }
        ensures { result ≡ pieces.items }
    {
        Pattern { pieces }
    }

    /// The pieces, in order.
    pub fn pieces(&self) -> &[Piece]
        ensures value { result.now ≡ self.now }
        ensures spellable { IsPattern self.now }
    {
        self.pieces.as_slice()
    }
}
