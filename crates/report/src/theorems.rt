// Theorems about the definitions that the contracts cite.
ghost use Rattle.report.specs.Theorems.{LinesStand};

// Numbers of at most 64 bits without their sign are written in decimal without leading zeros, negative ones behind a minus,
// and the marks of a sheet upward.
pub fn lines_stand()
    ensures { LinesStand }
{}
