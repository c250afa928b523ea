//! Whether a text matches a pattern.

ghost use Rattle.std.specs.Prelude.{◌≡◌, ◌↔◌, ◌∷◌, ◌<◌, [], IsTrue, MatchOption, length};
ghost use Rattle.std.specs.Str.{chars};
ghost use Rattle.choice_rules.specs.Matching.{Matches, is_match};
ghost use Rattle.choice_rules.specs.Searching.{Goes, standing, step, step_back};

use crate::pattern::{Pattern, Piece};

/// The first character of a text, and the rest.
pub(crate) fn split_first(text: &str) -> Option<(char, &str)>
    ensures parts { MatchOption result (chars text.now ≡ []) (λ r. chars text.now ≡ r.0 ∷ chars r.1.now) }
    ensures shorter { MatchOption result (length text.now ≡ 0) (λ r. length r.1.now < length text.now) }
{
    let mut chars = text.chars();
    let first = chars.next()?;
    Some((first, chars.as_str()))
}

/// The last star that was met: the pieces after it, and the text that its run may still take.
#[derive(Clone, Copy)]
struct LastStar<'p, 't> {
    pieces: &'p [Piece],
    text: &'t str,
}

/// Where a search stands: the pieces and the text that are left, and the star from which it may go on.
#[derive(Clone, Copy)]
struct Search<'p, 't> {
    pieces: &'p [Piece],
    left: &'t str,
    star: Option<LastStar<'p, 't>>,
}

/// What one step of a search gives.
enum Next<'p, 't> {
    Answer(bool),
    More(Search<'p, 't>),
}

impl<'p, 't> Search<'p, 't> {
    /// Lets the last star take one more character, where the pieces do not match what is left.
    fn go_back(self) -> Next<'p, 't>
        ensures { Goes result (step_back (standing self.entry).star) }
    {
        let Some(star) = self.star else {
            return Next::Answer(false);
        };
        let Some((_, text)) = split_first(star.text) else {
            return Next::Answer(false);
        };
        Next::More(Search {
            pieces: star.pieces,
            left: text,
            star: Some(LastStar {
                pieces: star.pieces,
                text,
            }),
        })
    }

    /// One step: past a piece that matches, or else back to the last star.
    fn advance(self) -> Next<'p, 't>
        ensures { Goes result (step (standing self.entry)) }
    {
        let Some((piece, pieces)) = self.pieces.split_first() else {
            return match split_first(self.left) {
                Some(_) => self.go_back(),
                None => Next::Answer(true),
            };
        };
        let Piece::Literal(wanted) = *piece else {
            return Next::More(Search {
                pieces,
                left: self.left,
                star: Some(LastStar {
                    pieces,
                    text: self.left,
                }),
            });
        };
        let Some((first, left)) = split_first(self.left) else {
            return self.go_back();
        };
        if first != wanted {
            return self.go_back();
        }
        Next::More(Search {
            pieces,
            left,
            star: self.star,
        })
    }
}

impl Pattern {
    /// Whether a text matches. It takes at most as many steps as the text and the pattern have characters, multiplied.
    pub fn matches(&self, text: &str) -> bool
        ensures value { result ≡ is_match self.now (chars text.now) }
        ensures meaning { IsTrue result ↔ Matches self.now (chars text.now) }
    {
        let mut search = Search {
            pieces: self.pieces(),
            left: text,
            star: None,
        };
        loop {
            match search.advance() {
                Next::Answer(answer) => return answer,
                Next::More(next) => search = next,
            }
        }
    }
}
