// Laws of pieces, each the contract of a function.
ghost use Rattle.page_machine.specs.PieceLaws.{PiecesTile};

// The pieces of a block tile exactly what passes, none could be greater, and they rise.
pub fn pieces_tile()
    ensures { PiecesTile }
{}
