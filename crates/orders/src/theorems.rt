// Theorems about the search, for every judge and every scale.
ghost use Rattle.orders.specs.Theorems.{SearchEnds, SearchInOrder};

use sheets::{Judge, Scale};

// Every search ends, after no more steps than there are places.
pub fn search_ends<J: Judge, S: Scale>(judge: &J, scale: &S)
    ensures { SearchEnds (J.judging judge.now) (S.scaling scale.now) }
{}

// A search goes through the sheets in their order. Of the sheets of marks below the count, a step passes only those that
// are not allowed, or cost no less than the sheet held, or are held from then on.
pub fn search_in_order<J: Judge, S: Scale>(judge: &J, scale: &S)
    ensures { SearchInOrder (J.judging judge.now) (S.scaling scale.now) }
{}
