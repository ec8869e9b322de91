//! What is known of a text however it comes in pieces.
ghost use Rattle.yices_text.specs.Laws.{CommandsStay, OneList, FaultsStay, OneFault};

/// However a text is cut into pieces, the commands that a [`Reader`](crate::Reader) answers and the fault
/// that it finds are those of the whole text: what some pieces say stays with all of them, and a text
/// says one thing. Does nothing: its clauses are laws.
pub fn pieces_are_alike()
    ensures commands { CommandsStay }
    ensures one_list { OneList }
    ensures fault { FaultsStay }
    ensures one_fault { OneFault }
{}
