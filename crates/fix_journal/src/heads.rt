//! Judges a gate by its first bytes and by how much of the file is left. `scanning` calls this for each gate,
//! and `journal` takes the bound of a payload from here.
ghost use Rattle.std.specs.Prelude.{◌≡◌, ◌+◌, ◌≤◌, min, take, List, ℕ, length};
ghost use Rattle.fix_journal.specs.Opening.{Judges, IsWithin};

// The most bytes of a payload.
pub(crate) const MOST_PAYLOAD: u64 = 1_114_112;

// What stands at a gate: it is closed; there is a record of so many bytes and a gate after it; it
// is open and there is no record.
#[derive(Clone, Copy)]
pub(crate) enum Head {
    Closed,
    Record(u64),
    Broken,
}

// What stands at a gate, by the first five bytes from there and how many bytes there are.
pub(crate) fn judge(head: &[u8], left: u64) -> Head
    requires some { 1 ≤ left }
    requires long { length head.now ≡ min left 5 }
    ensures judges { (rest : List ℕ) → length rest ≡ left → head.now ≡ take 5 rest → Judges result rest }
    ensures within { IsWithin result left }
{
    if head[0] != 1 {
        return Head::Closed;
    }
    if left < 6 {
        return Head::Broken;
    }
    let size = u32::from_be_bytes([head[1], head[2], head[3], head[4]]) as u64;
    if size == 0 {
        return Head::Broken;
    }
    if size > MOST_PAYLOAD {
        return Head::Broken;
    }
    if left - 5 <= size {
        return Head::Broken;
    }
    Head::Record(size)
}
