//! What a record changes of what a store has in memory. `walking` and `store` give it to `folding`.
ghost use Rattle.std.specs.Prelude.{◌≡◌, ◌≤◌, length};
ghost use Rattle.fix_store.specs.Spelling.{keeps};
ghost use Rattle.fix_store.specs.Folding.{record_of, item_of, change_of, IsFit};

use crate::reading::Spelt;
use crate::spelling::Kept;

#[derive(Clone, Copy)]
pub(crate) enum Change {
    // So many entries more, and the number that is expected then, or 0.
    Entries(u32, u32),
    Expect(u32),
    Withhold(u32),
    Reset(u64),
    ResetAsk(u64),
    Confirm,
    // The mark of version 2.
    Mark,
}

// What a record that was read changes.
pub(crate) fn change_read(spelt: &Spelt<'_>) -> Change
    requires { IsFit (item_of spelt.now) }
    ensures { result ≡ change_of (item_of spelt.now) }
{
    match *spelt {
        Spelt::App { .. } | Spelt::Admin { .. } => Change::Entries(1, 0),
        Spelt::Many { count, expect, .. } => Change::Entries(count, expect),
        Spelt::Expect(number) => Change::Expect(number),
        Spelt::Withhold(number) => Change::Withhold(number),
        Spelt::Reset(time) => Change::Reset(time),
        Spelt::ResetAsk(time) => Change::ResetAsk(time),
        Spelt::Confirm => Change::Confirm,
        Spelt::Mark => Change::Mark,
    }
}

// What a record that is kept changes.
pub(crate) fn change_kept(kept: &Kept<'_>) -> Change
    requires { IsFit (keeps (record_of kept.now)) }
    ensures { result ≡ change_of (keeps (record_of kept.now)) }
{
    match *kept {
        Kept::Push(_) => Change::Entries(1, 0),
        Kept::Many(pushes, expect) => Change::Entries(pushes.len() as u32, expect),
        Kept::Expect(number) => Change::Expect(number),
        Kept::Withhold(number) => Change::Withhold(number),
        Kept::Reset(time) => Change::Reset(time),
        Kept::ResetAsk(time) => Change::ResetAsk(time),
        Kept::Confirm => Change::Confirm,
    }
}
