//! Makes the path of a wrong place, from the place outwards. `field`, `members`, `message` and `dictionary`
//! call this.
ghost use Rattle.std.specs.Prelude.{◌≡◌, ◌++◌, ◌∷◌, [], OnOk, IfOk};
ghost use Rattle.fix_dict.specs.declared.fault.DictFault.TheVariants.{BadShape};
ghost use Rattle.fix_dict.specs.Faults.{item_path, behind_index, within, IsMemory};

use crate::DictFault;
use fix_base::Bytes;
use itoa::Buffer;
use std::alloc::{AllocError, Global};

/// BadShape with this path.
pub fn bad_shape(alloc: Global, path: &str) -> DictFault
    ensures { (IsMemory result → ⊥) → result ≡ BadShape path.now }
{
    match Bytes::copy(alloc, path.as_bytes()) {
        Ok(path) => DictFault::BadShape(path),
        Err(_) => DictFault::OutOfMemory,
    }
}

/// A fault of the item at the index of the array with the name, as one of the whole.
pub fn within(alloc: Global, name: &str, index: usize, fault: DictFault) -> DictFault
    ensures { (IsMemory result → ⊥) → result ≡ within name.now index fault }
{
    match fault {
        DictFault::BadShape(path) => match item_path(alloc, name, index, path.as_slice()) {
            Ok(whole) => DictFault::BadShape(whole),
            Err(_) => DictFault::OutOfMemory,
        },
        other => other,
    }
}

// The rest of a path after an item's index.
fn push_behind(out: &mut Vec<u8>, path: &[u8]) -> Result<(), AllocError>
    ensures { OnOk result (out.new.items ≡ out.old.items ++ behind_index path.now) }
{
    if !path.is_empty() {
        out.push(b'.')?;
        out.extend_from_slice(path)?;
    }
    Ok(())
}

fn item_path(alloc: Global, name: &str, index: usize, path: &[u8]) -> Result<Bytes, AllocError>
    ensures { IfOk result (λ whole. whole ≡ item_path name.now index path.now) }
{
    let mut digits = Buffer::new();
    let mut whole = Vec::new(alloc);
    whole.extend_from_slice(name.as_bytes())?;
    whole.push(b'[')?;
    whole.extend_from_slice(digits.format(index).as_bytes())?;
    whole.push(b']')?;
    push_behind(&mut whole, path)?;
    Ok(Bytes::from_vec(whole))
}
