//! The laws.
ghost use Rattle.law_status.specs.Agreeing.{BothEqualAgree, CaughtUpIsSo, EqualHasNoMore, EqualIsSo};

/// Where the figures of a running node say that another one is equal, that one has taken each operation that the node has taken, and the node each
/// that it knows the other one to have; where they say that the node is caught up, all the others are linked, have told what they have, are
/// equal in this sense, and one more message can wait for each.
pub fn equal_is_so()
    ensures peer { EqualIsSo }
    ensures no_more { EqualHasNoMore }
    ensures all { CaughtUpIsSo }
{}

/// Where the figures of two running nodes say so of each other, both hold one state.
pub fn nodes_that_are_equal_agree()
    ensures { BothEqualAgree }
{}
