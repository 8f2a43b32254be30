//! The laws of held wishes, each as the contract of a function that does nothing.
ghost use Rattle.lh_queue.specs.Laws.{MoreWithin, MoreNames, MoreApart, MoreDue, LaterWithin, LaterNames, LaterApart, SoonerDue, DifferentApart};

/// What holds of each held wish, and of one more, holds of each where that one is put.
pub fn put_keeps()
    ensures within { MoreWithin }
    ensures names { MoreNames }
    ensures apart { MoreApart }
    ensures due { MoreDue }
{}

/// What holds of each held wish holds of those that are left where some are taken.
pub fn take_keeps()
    ensures within { LaterWithin }
    ensures names { LaterNames }
    ensures apart { LaterApart }
{}

/// Wishes with different instants or instances do not compete; and where none is due before an instant, none is before an earlier one.
pub fn wishes_differ()
    ensures apart { DifferentApart }
    ensures due { SoonerDue }
{}
