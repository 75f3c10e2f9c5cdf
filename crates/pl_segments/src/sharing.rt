//! What is proved of several lists of slots over one store. The function does nothing: its contract is the law.
ghost use Rattle.pl_segments.specs.Sharing.{OneListIsHeld, StaysShared, OthersReadTheSame, HoldsTheNamed};

/// Where each segment has as many holders as slots of all lists name it, the slots of each list are held; a call that changes the
/// slots of one list keeps it so, and the slots of the others read what they read; and the segments that are there are those
/// that a slot names.
pub fn lists_over_one_store()
    ensures held { OneListIsHeld }
    ensures turned { StaysShared }
    ensures others { OthersReadTheSame }
    ensures named { HoldsTheNamed }
{}
