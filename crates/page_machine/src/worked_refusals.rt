// Worked refusals: which of two neighbouring rows of a call counts where both hold, each the contract of a function.
ghost use Rattle.page_machine.specs.WorkedRefusals.{StartOrder, OpenOrder, LoadOrder, StoreOrder, ReleaseOrder, FlushOrder, CloseOrder, QuestionOrder};

// 1, 2
pub fn start_order()
    ensures { StartOrder }
{}

// 3, 4, 5
pub fn open_order()
    ensures { OpenOrder }
{}

// 2, 3, 6, 7, 8, 11
pub fn load_order()
    ensures { LoadOrder }
{}

// 2, 3, 6, 7, 8, 11
pub fn store_order()
    ensures { StoreOrder }
{}

// 3, 6, 7, 9
pub fn release_order()
    ensures { ReleaseOrder }
{}

// 3, 6, 10
pub fn flush_order()
    ensures { FlushOrder }
{}

// 3, 6
pub fn close_order()
    ensures { CloseOrder }
{}

// 3, 6, 7
pub fn question_order()
    ensures { QuestionOrder }
{}
