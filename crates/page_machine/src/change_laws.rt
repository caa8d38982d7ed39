// Laws of canonical leaves under change, each the contract of a function.
ghost use Rattle.page_machine.specs.ChangeLaws.{OthersKeep, BroughtIn, ChangedAlone, LeafSplits, SplitAlone, SplitKeeps, MarksRemoved};

// One home changed: a page outside the old and the new leaf of that page keeps its leaf.
pub fn others_keep()
    ensures { OthersKeep }
{}

// A page brought in: one new leaf, every old one on its block inside it, every other leaf as before.
pub fn brought_in()
    ensures { BroughtIn }
{}

// The same of a page that had a leaf to itself and changed.
pub fn changed_alone()
    ensures { ChangedAlone }
{}

// A page of a leaf taken out or marked: the others have the greatest parts of the leaf beside it.
pub fn leaf_splits()
    ensures { LeafSplits }
{}

// And the page itself, if it is still there, has a leaf to itself.
pub fn split_alone()
    ensures { SplitAlone }
{}

// And every page outside the leaf keeps its own.
pub fn split_keeps()
    ensures { SplitKeeps }
{}

// All marks of an object removed: every new leaf is read-only and made of whole old ones.
pub fn marks_removed()
    ensures { MarksRemoved }
{}
