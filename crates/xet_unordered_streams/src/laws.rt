//! What the pulls of an unordered stream give together.
ghost use Rattle.xet_unordered_streams.specs.ItemLaws.{ItemsArePlaced, ItemsJoin};

/// Each item of an unordered stream is the window's bytes at its place, and no place comes twice.
pub fn items_are_placed()
    ensures { ItemsArePlaced }
{}

/// Up to its end, sorted by their places, they join to the window.
pub fn items_join()
    ensures { ItemsJoin }
{}
