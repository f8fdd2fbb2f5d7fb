// The worked cases of families and of the scheme, by their numbers.

#![tactic(auto)]

ghost use Rattle.worked.specs.WorkedCases.{WorkedCases};

// Holds the worked cases in its contract.
pub fn worked_cases()
    ensures { WorkedCases }
{}
