//! Laws of histories that are true of a valid store's file, as functions whose contracts state them.
ghost use Rattle.xet_history.specs.Laws.{PiecesArePrefix, PiecesCover, PiecesReach, WrittenArePrefix};

/// The joined pieces of a true history are the window that its queries cover.
pub fn pieces_cover()
    ensures { PiecesCover }
{}

/// They are the beginning of the window of the range.
pub fn pieces_are_prefix()
    ensures { PiecesArePrefix }
{}

/// Where the queries reach the range's end, or a plan ends early, they are that window itself.
pub fn pieces_reach()
    ensures { PiecesReach }
{}

/// The first written bytes of the pieces are the beginning of the window.
pub fn written_are_prefix()
    ensures { WrittenArePrefix }
{}
