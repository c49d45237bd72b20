//! The runs. The functions do nothing: what they ensure is proved by computing it.
ghost use Rattle.server_rules.specs.Examples.Results.{ReadIsRetried, TwoAreApart, CloseInterrupts};
ghost use Rattle.server_rules.specs.Examples.Results.{OtherTraceIsRefused, PlaceIsFreed};
ghost use Rattle.server_rules.specs.Examples.Results.{NothingIsLeft};
ghost use Rattle.server_rules.specs.Examples.Results.{IdleCostsNothing, BothCommute};
ghost use Rattle.server_rules.specs.Examples.Results.{TryIsMadeAgain};
ghost use Rattle.server_rules.specs.Examples.Results.{SharedRefIsRead};

/// A read whose version is kept no longer is made again, and a ref of which a read failed keeps one
/// version more from its next commit on.
pub fn read_is_retried()
    ensures { ReadIsRetried }
{}

/// Two tenants that do the same by turns are each answered as if they were alone.
pub fn two_are_apart()
    ensures { TwoAreApart }
{}

/// Two sessions commute one ref, and both commits stand.
pub fn both_commute()
    ensures { BothCommute }
{}

/// A session that has read an atom tries again where another session set it meanwhile.
pub fn try_is_made_again()
    ensures { TryIsMadeAgain }
{}

/// A tenant reads a ref that all share, and then what another tenant set it to.
pub fn shared_ref_is_read()
    ensures { SharedRefIsRead }
{}

/// A close answers what waits, then itself, and interrupts what is in hand.
pub fn close_interrupts()
    ensures { CloseInterrupts }
{}

/// An ending with another trace than the recorded one is refused where they differ first.
pub fn other_trace_is_refused()
    ensures { OtherTraceIsRefused }
{}

/// A tenant that goes leaves its place to another.
pub fn place_is_freed()
    ensures { PlaceIsFreed }
{}

/// Of a tenant that is gone no ref is left.
pub fn nothing_is_left()
    ensures { NothingIsLeft }
{}

/// A turn for which there is nothing to do costs no step.
pub fn idle_costs_nothing()
    ensures { IdleCostsNothing }
{}
