//! Where the limits of a run stand, and what data the states of small machines see.

ghost use Rattle.asl_model.specs.Flows.{CatcherPuts, ChoiceFindsNothing, ChoiceSeesInside, PassHandsOn, StateIsCause, TicketsInOrder};
ghost use Rattle.asl_model.specs.RunLimits.{HopsEnd, InputsEnd, ItemsEnd, OutcomesEnd, StretchEnds};

/// The limits: 2,000 states of a scope, 1,000 items of a Map, and the data of a fan's inputs and outcomes. One more is too
/// much, and the state's name is the cause.
pub fn limits()
    ensures hops { HopsEnd }
    ensures stretch { StretchEnds }
    ensures items { ItemsEnd }
    ensures inputs { InputsEnd }
    ensures outcomes { OutcomesEnd }
{}

/// A Choice and a Pass go by the data that their paths find, an error has its state as cause, and the sequential run
/// answers the Task of least name first.
pub fn flows()
    ensures choice { ChoiceSeesInside }
    ensures raw { ChoiceFindsNothing }
    ensures pass { PassHandsOn }
    ensures cause { StateIsCause }
    ensures catcher { CatcherPuts }
    ensures tickets { TicketsInOrder }
{}
