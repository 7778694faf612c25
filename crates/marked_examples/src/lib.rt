// The marked examples P1 to P12 of document 01, proved of the rules as one table.
#![tactic(auto)]

ghost use Rattle.marked_examples.specs.Cases.{Marked};

// Each case of the table decodes and steps as document 01 says.
pub fn marked_examples()
    ensures { Marked }
{}
