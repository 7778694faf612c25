// That any two answers which a promise of the drives or of the disc check allows are equal; it has no code.
#![tactic(auto)]

ghost use Rattle.one_answer.specs.Rules.{OneAnswer};

// Each promise is one equation with a definition, so it fixes the answer and everything that the call leaves.
pub fn one_answer()
    ensures { OneAnswer }
{}
