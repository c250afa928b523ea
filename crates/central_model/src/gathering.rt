//! What the branches of a fan came to.

ghost use Rattle.std.specs.Prelude.{◌≡◌, IfOk};
ghost use Rattle.central_model.specs.Gathering.{and_end};
ghost use Rattle.central_model.specs.Told.{told_end};
ghost use Rattle.central_model.specs.Views.{gathered_of};
ghost use Rattle.asl_model.specs.Central.{End as ModelEnd};

use crate::run::End;
use place_name::Place;
use unum_json::{Items, NoMemory, Outcome};

/// What the branches of a fan came to.
#[derive(Drop)]
pub enum Gathered {
    /// All have ended, with these outcomes.
    Ended(Items<Outcome>),
    /// Some wait at these places.
    Waits(Items<Place>),
}

impl Gathered {
    /// The same with the end of one branch more.
    pub fn and(self, end: End) -> Result<Gathered, NoMemory>
        ensures { (e : ModelEnd) → end ≡ told_end e → IfOk result (λ g. gathered_of g ≡ and_end (gathered_of self) e) }
    {
        match (self, end) {
            (Gathered::Ended(mut outcomes), End::Ended(outcome)) => {
                outcomes.push(outcome)?;
                Ok(Gathered::Ended(outcomes))
            }
            (Gathered::Ended(outcomes), End::Waits(places)) => {
                drop(outcomes);
                Ok(Gathered::Waits(places))
            }
            (Gathered::Waits(places), End::Ended(outcome)) => {
                drop(outcome);
                Ok(Gathered::Waits(places))
            }
            (Gathered::Waits(mut places), End::Waits(more)) => {
                places.append(more)?;
                Ok(Gathered::Waits(places))
            }
        }
    }
}
