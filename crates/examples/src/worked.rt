ghost use Rattle.examples.specs.Worked.{WorkedExamples};

/// States that the worked examples come out as written, all of them as one property of the definitions.
pub fn worked_examples_hold()
    ensures { WorkedExamples }
{}
