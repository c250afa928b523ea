//! Names of states.

ghost use Rattle.std.specs.Prelude.{◌≡◌, length};
ghost use Rattle.std.specs.Str.{chars};
ghost use Rattle.asl_model.specs.Valid.{is_misnamed};

use unum_json::Text;

/// How many characters a text has.
fn length_of(text: &str) -> usize
    ensures { result ≡ length (chars text.now) }
{
    text.chars().count()
}

/// Whether a name has no character or more than 80.
pub fn is_misnamed(name: &Text) -> bool
    ensures { result ≡ is_misnamed name.now }
{
    let length = length_of(name.as_str());
    length == 0 || length > 80
}
