//! The steps on the table of what shares have seen. Each is made under the merge lock.
ghost use Rattle.std.specs.Prelude.{◌≡◌, ◌<◌, ◌+◌, [], None};
ghost use Rattle.ksm_shared.specs.Seen.{IsShareSeat, IsBookSeat, Wrote, book_view, share_view};

use crate::seen::{Entry, Looking, NewShare, SeenSeat, SeenWords, Shares, Whole, Writing};

/// The share's seat is joined to the book's, the entry is added, if there is one, and the share's seat is cut off
/// again.
pub(crate) fn write(
    table: &SeenWords,
    book: &mut SeenSeat,
    share: &mut SeenSeat,
    entry: &Option<Entry>,
)
    requires table { (book.old.table_id ≡ table.now.table_id) × (share.old.table_id ≡ table.now.table_id)
        × (0 < table.now.table_id.words) }
    requires book { IsBookSeat book.old.me }
    requires share { IsShareSeat share.old.me }
    ensures table { (book.new.table_id ≡ table.now.table_id) × (share.new.table_id ≡ table.now.table_id) }
    ensures book { IsBookSeat book.new.me }
    ensures share { IsShareSeat share.new.me }
    ensures wrote { Wrote book.old.me.0 share.old.me.0 book.new.me.0 share.new.me.0 entry.now }
{
    let whole = table.split_seat::<Whole>(share);
    table.join_seat::<Shares>(book, whole);
    table.compare_exchange_with::<Writing>(book, 0, 0, 0, entry);
    *share = table.split_seat::<Shares>(book);
}

/// The share's seat is joined to the book's, the journal is looked at, and the share's seat is cut off again. The word
/// is loaded alone.
pub(crate) fn look(table: &SeenWords, book: &mut SeenSeat, share: &mut SeenSeat)
    requires table { (book.old.table_id ≡ table.now.table_id) × (share.old.table_id ≡ table.now.table_id)
        × (0 < table.now.table_id.words) }
    requires book { IsBookSeat book.old.me }
    requires share { IsShareSeat share.old.me }
    ensures table { (book.new.table_id ≡ table.now.table_id) × (share.new.table_id ≡ table.now.table_id) }
    ensures book { IsBookSeat book.new.me }
    ensures share { IsShareSeat share.new.me }
    ensures wrote { Wrote book.old.me.0 share.old.me.0 book.new.me.0 share.new.me.0 None }
{
    let whole = table.split_seat::<Whole>(share);
    table.join_seat::<Shares>(book, whole);
    table.load::<Looking>(book, 0);
    *share = table.split_seat::<Shares>(book);
}

/// A new share, which has seen nothing.
pub(crate) fn mint(table: &SeenWords, book: &mut SeenSeat) -> SeenSeat
    requires table { (book.old.table_id ≡ table.now.table_id) × (0 < table.now.table_id.words) }
    requires book { IsBookSeat book.old.me }
    ensures table { (book.new.table_id ≡ table.now.table_id) × (result.table_id ≡ table.now.table_id) }
    ensures book { book.new.me ≡ (book_view book.old.me.0.log (book.old.me.0.shares + 1), []) }
    ensures share { result.me ≡ (share_view book.old.me.0.shares [], []) }
{
    table.split_seat::<NewShare>(book)
}
