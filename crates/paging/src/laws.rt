// What holds of paging, each as the contract of a function that does nothing.
ghost use Rattle.paging.specs.Example.{AreCounted};
ghost use Rattle.paging.specs.Laws.{ListsStayWithin, KeysStayApart};

/// Two programs that share one frame have these counts.
pub fn programs_share_a_frame()
    ensures { AreCounted }
{}

/// Neither list comes to be longer than it may be.
pub fn lists_stay_within()
    ensures { ListsStayWithin }
{}

/// No key comes to stand twice in one list.
pub fn keys_stay_apart()
    ensures { KeysStayApart }
{}
