//! Laws of marked letters: the functions do nothing, and their contracts are the laws.

ghost use Rattle.rx_pump.specs.Replying.{EachCallHasItsAnswer, EachCallIsReplied, EachPostHasItsAnswer, EachReplyIsToItsCall, ReplyTellsThePlace};

/// Each call of a port has one reply, at its place: the replies to a port have the tickets of its calls, in their order.
/// So where the boxes have settled, a caller whose tickets differ got the answer to each of its calls once.
pub fn each_call_is_replied<S: Drop>()
    ensures { EachCallIsReplied S }
{}

/// The reply to an accepted item tells its place, which is one less than the items that it counts.
pub fn reply_tells_the_place<S: Drop>()
    ensures { ReplyTellsThePlace S }
{}

/// Where the tickets of a port's calls rise, as those of a desk do, the reply with the ticket of a call is what the subject
/// answered to just that call at its place, or that it was refused for want of memory.
pub fn each_reply_is_to_its_call<S: Drop>()
    ensures { EachReplyIsToItsCall S }
{}

/// What a desk's call was answered is the reply to just that call, where the pump received what the desk's port put, and the
/// desk the first of what the pump replied to it.
pub fn each_call_has_its_answer<S: Drop>()
    ensures { EachCallHasItsAnswer S }
{}

/// The same of a call that a desk posted, and whose answer it waited for later, whatever it put and was answered in between.
pub fn each_post_has_its_answer<S: Drop>()
    ensures { EachPostHasItsAnswer S }
{}
