// What the replies of a new machine tell of it, each the contract of a function.
ghost use Rattle.page_machine.specs.TellingLaws.{AlikeReplyAlike, UnlikeReplyUnlike};

// Machines alike in words and limit reply alike to every list of calls.
pub fn alike_reply_alike()
    ensures { AlikeReplyAlike }
{}

// Machines unlike in words or limit reply unlike to some list of calls.
pub fn unlike_reply_unlike()
    ensures { UnlikeReplyUnlike }
{}
