//! Laws over the definitions of sizes and room. Their functions do nothing; their clauses are what is proved.
ghost use Rattle.event_journal.specs.Laws.{OctetsAddUp, RoomInTurn};

/// The octets of two histories in a row are those of the first and those of the second, added up.
pub fn octets_add_up()
    ensures { OctetsAddUp }
{}

/// There is room for entries in a row exactly where there is room for the first, and behind it for the others. So what
/// was found to have room can be pushed one entry after another.
pub fn room_in_turn()
    ensures { RoomInTurn }
{}
