// What placement comes to in the page machine that the places stand for, each the contract of a function.
ghost use Rattle.page_machine.specs.MeaningLaws.{CountsPresent, BringsInIfRoom, NowhereIfFull, BringsInPage, StoresToPage, ReleasesPage, FlushesObject, ClosesObject, OpensObject};

// The machine counts the pages that are present.
pub fn counts_present()
    ensures { CountsPresent }
{}

// A page is brought in only where the machine has room for it ..
pub fn brings_in_if_room()
    ensures { BringsInIfRoom }
{}

// .. and refused only where it has none.
pub fn nowhere_if_full()
    ensures { NowhereIfFull }
{}

// A page brought in changes that page alone.
pub fn brings_in_page()
    ensures { BringsInPage }
{}

// A store to a page that is present changes that page alone.
pub fn stores_to_page()
    ensures { StoresToPage }
{}

// A release changes that page alone.
pub fn releases_page()
    ensures { ReleasesPage }
{}

// A flush removes the marks of the object's pages.
pub fn flushes_object()
    ensures { FlushesObject }
{}

// A close lets all pages of the object go.
pub fn closes_object()
    ensures { ClosesObject }
{}

// An open gives the object its size.
pub fn opens_object()
    ensures { OpensObject }
{}
