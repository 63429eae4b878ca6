//! The laws of delivery, for every history: each function does nothing, and its contract is one law of
//! `specs/Delivery.antt`.

ghost use Rattle.rx_history.specs.Delivery.{LineIsInOrder, OffersAreInOrder, EachPortIsInOrder, PlacesAreCounted, PlacesRise, EachItemIsOffered, AsyncOffersTheLast, GivenThenWaiting, GivenOnlyGrows, OutsAreGiven, TerminalIsLast, LineEndsAsTheSubject, EndsAsTheSubjectOrOverflows, EndStays, NothingFollowsATerminal, NothingFollowsTheEnd, ErrorGoesAhead, OverflowEndsIt, OverflowStaysBehind, OverflowGoesAhead, DisposeDiscards, NothingFollowsADispose, GivenAndOwed, GivenWithinRequests, NothingWaitsWhileOwed, WaitsWithinRoom, KeepsAll, KeptIsAll};

/// The items of a line are items offered to the observer, in their order and none twice.
pub fn line_is_in_order()
    ensures { LineIsInOrder }
{}

/// The items offered to an observer are the seed and items of the accepted Emits, in their order and none twice.
pub fn offers_are_in_order()
    ensures { OffersAreInOrder }
{}

/// The items of each port come in that port's order.
pub fn each_port_is_in_order()
    ensures { EachPortIsInOrder }
{}

/// The place of an accepted item is how many were accepted before it, and there are no more than the limit.
pub fn places_are_counted()
    ensures { PlacesAreCounted }
{}

/// Along a line the places rise, the seed left out.
pub fn places_rise()
    ensures { PlacesRise }
{}

/// Except of Async, an item that is accepted is offered to every observer that is held and has no end, unless it overflows.
pub fn each_item_is_offered()
    ensures { EachItemIsOffered }
{}

/// Of an Async subject an observer that is held, except by Bounded, is offered the last item alone, and only once the subject
/// completed.
pub fn async_offers_the_last()
    ensures { AsyncOffersTheLast }
{}

/// What was given, and then what waits, is the line.
pub fn given_then_waiting()
    ensures { GivenThenWaiting }
{}

/// What was given is never taken back.
pub fn given_only_grows()
    ensures { GivenOnlyGrows }
{}

/// What an event gives to an observer is what it is given more.
pub fn outs_are_given()
    ensures { OutsAreGiven }
{}

/// A terminal stands in a line at its end alone.
pub fn terminal_is_last()
    ensures { TerminalIsLast }
{}

/// But by Bounded, the line of an observer that is held ends by the terminal of its subject, once there is one.
pub fn line_ends_as_the_subject()
    ensures { LineEndsAsTheSubject }
{}

/// By any strategy it ends as the subject or by an overflow.
pub fn ends_as_the_subject_or_overflows()
    ensures { EndsAsTheSubjectOrOverflows }
{}

/// An observer that has an end keeps it, and is offered nothing more.
pub fn end_stays()
    ensures { EndStays }
{}

/// Once a terminal was given, nothing more is.
pub fn nothing_follows_a_terminal()
    ensures { NothingFollowsATerminal }
{}

/// Once the subject ended and nothing waits, nothing more is given to an observer that is held.
pub fn nothing_follows_the_end()
    ensures { NothingFollowsTheEnd }
{}

/// An error that is emitted is given at once to an observer by Ahead, and nothing waits for it any more.
pub fn error_goes_ahead()
    ensures { ErrorGoesAhead }
{}

/// An item that overflows ends the observer.
pub fn overflow_ends_it()
    ensures { OverflowEndsIt }
{}

/// By Delay an overflow comes behind all that the observer was to be given.
pub fn overflow_stays_behind()
    ensures { OverflowStaysBehind }
{}

/// By Ahead an overflow is given at once, and nothing waits any more.
pub fn overflow_goes_ahead()
    ensures { OverflowGoesAhead }
{}

/// An observer that leaves is given nothing by that, and what waited for it is discarded.
pub fn dispose_discards()
    ensures { DisposeDiscards }
{}

/// Once an observer has left, nothing more is given to it.
pub fn nothing_follows_a_dispose()
    ensures { NothingFollowsADispose }
{}

/// The items given and those owed are as many as were requested.
pub fn given_and_owed()
    ensures { GivenAndOwed }
{}

/// No more items are given than were requested.
pub fn given_within_requests()
    ensures { GivenWithinRequests }
{}

/// Nothing is held back: while an item is owed, nothing waits.
pub fn nothing_waits_while_owed()
    ensures { NothingWaitsWhileOwed }
{}

/// Under Drop, Latest and Bounded no more items wait than there is room for.
pub fn waits_within_room()
    ensures { WaitsWithinRoom }
{}

/// Under Buffer and Bounded every item offered is kept.
pub fn kept_is_all()
    ensures { KeptIsAll }
{}

/// Under Buffer and Bounded every item offered is in the line, as long as no end went ahead of those that waited.
pub fn keeps_all()
    ensures { KeepsAll }
{}
