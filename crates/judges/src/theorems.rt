// Theorems about the definitions that the contracts cite.
ghost use Rattle.judges.specs.Theorems.{ClosuresStand, SumsStand};

// A reduct has exactly one closure, the test `lawful` finds the answer sets, and of a sheet at most one verdict is said.
pub fn closures_stand()
    ensures { ClosuresStand }
{}

// The least and the greatest sum count what they should.
pub fn sums_stand()
    ensures { SumsStand }
{}
