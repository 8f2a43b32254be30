//! The first region of a process by the values that its parts had before, and the second region that stands on it: laws, each the
//! contract of a function that does nothing.
#![tactic(auto)]

ghost use Rattle.lh_region_laws.specs.Before.{RefusalsAreAlike, RegionsAreAlike, SecondRowsAreTyped, TargetsAreAlike};

/// The first region by the values that parts had before has the rows of the one by their values now, but for the values in their
/// terms: the same parts are probed and driven, and it ends at the same waits, or stops for the same reason.
pub fn regions_alike()
    ensures rows { RegionsAreAlike }
    ensures refusals { RefusalsAreAlike }
    ensures targets { TargetsAreAlike }
{}

/// Every term of the rows of the second region is typed.
pub fn second_rows_are_typed()
    ensures { SecondRowsAreTyped }
{}
