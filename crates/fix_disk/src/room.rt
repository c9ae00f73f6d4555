//! Changes of vectors whose room was taken before, so that none runs out of memory. The disk and the sink in
//! memory call these, and other crates call `put` and `put_bytes`.
ghost use Rattle.std.specs.Prelude.{◌≡◌, ◌+◌, ◌-◌, ◌<◌, ◌≤◌, Bool, true, false, [], ◌∷◌, ◌++◌, length, take, drop};
ghost use Rattle.std.specs.Prelude.{replicate, vec_len, vec_capacity};
ghost use Rattle.fix_disk.specs.Disk.{overwritten};

/// Puts a value into room that is there.
pub fn put<T: Drop>(values: &mut Vec<T>, value: T)
    requires { vec_len values.old < vec_capacity values.old }
    ensures items { values.new.items ≡ values.old.items ++ value ∷ [] }
    ensures len { vec_len values.new ≡ vec_len values.old + 1 }
    ensures capacity { vec_capacity values.old ≤ vec_capacity values.new }
{
    match values.push(value) {
        Ok(()) => {}
        Err(_) => unreachable!(),
    }
}

/// Puts bytes into room that is there.
pub fn put_bytes(held: &mut Vec<u8>, bytes: &[u8])
    requires { vec_len held.old + length bytes.now ≤ vec_capacity held.old }
    ensures items { held.new.items ≡ held.old.items ++ bytes.now }
    ensures len { vec_len held.new ≡ vec_len held.old + length bytes.now }
    ensures capacity { vec_capacity held.old ≤ vec_capacity held.new }
{
    match held.extend_from_slice(bytes) {
        Ok(()) => {}
        Err(_) => unreachable!(),
    }
}

// Puts bytes over those that stand from a place on, and after them.
pub(crate) fn put_over(held: &mut Vec<u8>, at: usize, bytes: &[u8])
    requires within { at ≤ vec_len held.old }
    requires room { at + length bytes.now ≤ vec_capacity held.old }
    ensures items { held.new.items ≡ overwritten at bytes.now held.old.items }
    ensures capacity { vec_capacity held.old ≤ vec_capacity held.new }
{
    let inside = bytes.len().min(held.len() - at);
    held[at..at + inside].copy_from_slice(&bytes[..inside]);
    put_bytes(held, &bytes[inside..]);
}

// Marks so many places from one on.
pub(crate) fn mark_over(marks: &mut Vec<bool>, at: usize, count: usize)
    requires within { at ≤ vec_len marks.old }
    requires room { at + count ≤ vec_capacity marks.old }
    ensures items { marks.new.items ≡ overwritten at (replicate count true) marks.old.items }
    ensures capacity { vec_capacity marks.old ≤ vec_capacity marks.new }
{
    let inside = count.min(marks.len() - at);
    mark_part(marks, at, inside);
    fill_up(marks, count - inside, true);
}

// Puts what stands in `bytes` from a place on in place of what stood there.
pub(crate) fn put_from(held: &mut Vec<u8>, from: usize, bytes: &[u8])
    requires within { from ≤ vec_len held.old }
    requires short { from ≤ length bytes.now }
    requires room { length bytes.now ≤ vec_capacity held.old }
    ensures items { held.new.items ≡ take from held.old.items ++ drop from bytes.now }
    ensures capacity { vec_capacity held.old ≤ vec_capacity held.new }
{
    held.truncate(from);
    put_bytes(held, &bytes[from..]);
}

// Clears the marks from a place on.
pub(crate) fn clear_from(marks: &mut Vec<bool>, from: usize)
    requires within { from ≤ vec_len marks.old }
    ensures items { marks.new.items ≡ take from marks.old.items ++ replicate (vec_len marks.old - from) false }
    ensures capacity { vec_capacity marks.old ≤ vec_capacity marks.new }
{
    let count = marks.len() - from;
    marks.truncate(from);
    fill_up(marks, count, false);
}

// Marks so many places that are there.
fn mark_part(marks: &mut Vec<bool>, at: usize, count: usize)
    requires { at + count ≤ vec_len marks.old }
    ensures items { marks.new.items ≡ take at marks.old.items
        ++ (replicate count true ++ drop (at + count) marks.old.items) }
    ensures len { vec_len marks.new ≡ vec_len marks.old }
    ensures capacity { vec_capacity marks.new ≡ vec_capacity marks.old }
{
    marks[at..at + count].fill(true);
}

// Appends so many marks.
fn fill_up(marks: &mut Vec<bool>, count: usize, mark: bool)
    requires { vec_len marks.old + count ≤ vec_capacity marks.old }
    ensures items { marks.new.items ≡ marks.old.items ++ replicate count mark }
    ensures capacity { vec_capacity marks.old ≤ vec_capacity marks.new }
{
    match marks.resize(marks.len() + count, mark) {
        Ok(()) => {}
        Err(_) => unreachable!(),
    }
}
