//! What the data flow makes of one small input, and where its errors come.

ghost use Rattle.asl_shape.specs.Shown.{DataLimit, FirstErrorWins, InputPathGives, OutputPathGives, ParametersFollow, ResultPathGives};

/// The data flow computes on a small input and a small result.
pub fn worked_row()
    ensures input_path { InputPathGives }
    ensures parameters { ParametersFollow }
    ensures result_path { ResultPathGives }
    ensures output_path { OutputPathGives }
{}

/// Which error comes, by its name: the first in the order of application, and the data limit just above its numbers.
pub fn errors_in_order()
    ensures first { FirstErrorWins }
    ensures limit { DataLimit }
{}
