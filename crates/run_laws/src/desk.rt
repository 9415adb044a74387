ghost use Rattle.run_laws.specs.Desks.{DeskFirstDecides, DeskGoesByParts, DeskGoesFirst, LinesAloneDecide, LinesDecide};

/// What a desk's lines do in a row is what the first do, and then what the others do.
pub fn desk_goes_by_parts()
    ensures { DeskGoesByParts }
{}

/// Without want of memory the lines of a desk and the answers to its entries decide all else.
pub fn lines_decide()
    ensures { LinesDecide }
{}

/// Without want of memory, and where nothing comes between its entries, the lines of a desk decide its entries with their answers too.
pub fn lines_alone_decide()
    ensures { LinesAloneDecide }
{}

/// Where a desk makes all its entries before the first packet is stamped, the history is its moves and then the stamps; its entries with their
/// answers and the number of packets decide all of it.
pub fn desk_first_decides()
    ensures first { DeskGoesFirst }
    ensures decides { DeskFirstDecides }
{}
