// The worked cases, as one theorem about the definitions that the contracts cite.
#![tactic(auto)]

ghost use Rattle.semantics_tests.specs.Cases.{CasesStand};

// The verdicts, costs and steps of the worked cases are as docs/SEMANTICS.md says.
pub fn cases_stand()
    ensures { CasesStand }
{}
