//! What holds of a recorder. Each law is a contract over all that wires and books may be.
ghost use Rattle.std.specs.Prelude.{◌≡◌, true, false, List};
ghost use Rattle.session_recorder.specs.Books.{is_refused};
ghost use Rattle.session_recorder.specs.Recording.{agrees, has_failure, outside_over, unsent, IsKept};
ghost use Rattle.session_recorder.specs.declared.book.Book.{Book};
ghost use Rattle.wire_core.specs.Outside.{link_of, Outside};
ghost use Rattle.wire_core.specs.declared.outside.Entry.{Entry};
ghost use Rattle.wire_core.specs.declared.outside.Side.{Side};

/// All that came is kept: what may be left out of what the wires inside logged is something that went out.
pub fn a_record_has_what_came()
    ensures { (told kept : List Entry) → IsKept told kept → unsent kept ≡ unsent told }
{}

/// Where no link failed, all is kept that the wires inside logged.
pub fn a_record_without_failures_is_whole()
    ensures { (told kept : List Entry) → IsKept told kept → has_failure kept ≡ false → kept ≡ told }
{}

/// Where memory was not refused, a side's link is told as the wires inside tell it.
pub fn a_recorder_tells_its_links()
    ensures { (side : Side) (o : Outside) (b : Book) → agrees o b ≡ true → is_refused b ≡ false
        → link_of side (outside_over o b) ≡ link_of side o }
{}
