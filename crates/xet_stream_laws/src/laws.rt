//! What the pulls of a stream give together.
ghost use Rattle.xet_stream_rules.specs.StreamLaws.{PiecesGoOn, PiecesJoin};

/// The pieces that a stream answered so far join to the beginning of the window.
pub fn pieces_go_on()
    ensures { PiecesGoOn }
{}

/// Up to its end they join to the window.
pub fn pieces_join()
    ensures { PiecesJoin }
{}
