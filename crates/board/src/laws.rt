// Laws of runs: the contract of each function is the law. They compute nothing.
ghost use Rattle.board.specs.Laws.{PiecesJoin, HaltedStays, SpinsJoin, HaltedSpinStays, OneWordACycle, RoomSuffices};

// A piece of a run and then another, handed on as they stand, are one run.
pub fn pieces_join()
    ensures { PiecesJoin }
{}

// A board that has halted stays as it is.
pub fn halted_stays()
    ensures { HaltedStays }
{}

// Two calls of `spin`, the second on what the first has left, are one.
pub fn spins_join()
    ensures { SpinsJoin }
{}

// What a call of `spin` that halted has left is what any more cycles leave.
pub fn halted_spin_stays()
    ensures { HaltedSpinStays }
{}

// A cycle puts out at most one word.
pub fn one_word_a_cycle()
    ensures { OneWordACycle }
{}

// Room for as many words as cycles is room enough.
pub fn room_suffices()
    ensures { RoomSuffices }
{}
