//! Laws of which RP a group has, each the contract of a function with nothing to do.
ghost use Rattle.law_settled.specs.Choices.{FirstIsChosen, LongestMatchDecides, NoneIsChosen, ValuesAsPrinted};

/// Without candidates the longest match alone decides.
pub fn longest_match_decides()
    ensures { LongestMatchDecides }
{}

/// Of the candidates that a group has the first is chosen, by prefix, priority, value and address.
pub fn first_is_chosen()
    ensures { FirstIsChosen }
{}

/// None is chosen only where no candidate has the group.
pub fn none_is_chosen()
    ensures { NoneIsChosen }
{}

/// The hash function has the values that FRR printed.
pub fn values_as_printed()
    ensures { ValuesAsPrinted }
{}
