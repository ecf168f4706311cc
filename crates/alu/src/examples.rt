// Worked examples of the HP-87's arithmetic.
ghost use Rattle.alu.specs.Examples.{WorkedExamples};

// Their statement is the contract: they follow from the definitions that the contracts of the operations cite.
pub fn worked_examples()
    ensures { WorkedExamples }
{}
