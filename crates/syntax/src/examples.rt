// Sheets to try, compared with what the definition of the form computes.
ghost use Rattle.syntax.specs.Examples.{Tried};

// The examples are judged as said.
pub fn examples_agree()
    ensures law { Tried }
{}
