// Laws of canonical leaves, each the contract of a function.
ghost use Rattle.page_machine.specs.LeafLaws.{CanonicalIsGreatest, LeafIfPresent, LeafTells, EqualLeaves, EqualLeavesOfAll};

// The canonical leaf of a page is that of the greatest whole block around it.
pub fn canonical_is_greatest()
    ensures { CanonicalIsGreatest }
{}

// A page has a leaf exactly where it is present.
pub fn leaf_if_present()
    ensures { LeafIfPresent }
{}

// A leaf covers its page, tells its home, and every page of its block has it.
pub fn leaf_tells()
    ensures { LeafTells }
{}

// Two present pages of an object have equal leaves exactly if one whole block of a size holds both.
pub fn equal_leaves()
    ensures { EqualLeaves }
{}

// The same of pages of any objects, where no two pages lie in one frame.
pub fn equal_leaves_of_all()
    ensures { EqualLeavesOfAll }
{}
