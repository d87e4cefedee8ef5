//! Forgetting what is known of the rows that roles see.

ghost use Rattle.std.specs.Prelude.{◌≡◌, ◌==◌, ◌&&◌, [], if◌then◌else◌};

use engine::Seen;
use memory::Heap;
use sessions::Sessions;

/// The numbers of changes and loads so far.
pub(crate) fn counts<A: Heap>(sessions: &Sessions<A>) -> (u64, u64)
    ensures changes { result.0 ≡ sessions.now.database.catalog.change_number }
    ensures loads { result.1 ≡ sessions.now.loads }
{
    let changes = sessions.store().catalog().change_number();
    (changes, sessions.loads())
}

/// Forgets what is known where a change or a load was accepted since there were so many of them.
pub(crate) fn forget_if_later<A: Heap>(
    sessions: &Sessions<A>,
    before: (u64, u64),
    seen: &mut Seen<A>,
)
    ensures { seen.new ≡ (if (sessions.now.database.catalog.change_number == before.0) && (sessions.now.loads == before.1) then seen.old else []) }
{
    let (changes, loads) = counts(sessions);
    if changes != before.0 || loads != before.1 {
        seen.clear();
    }
}
