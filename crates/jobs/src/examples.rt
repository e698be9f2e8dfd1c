// Worked examples, as one statement.
ghost use Rattle.jobs.specs.Examples.{WorkedExamples};

// Computes nothing. Its contract states the worked examples.
pub fn worked_examples()
    ensures { WorkedExamples }
{}
