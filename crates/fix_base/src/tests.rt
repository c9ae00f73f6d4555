//! That memory can be had.
use crate::{Bytes, OutOfMemory};

#[test]
fn a_copy_is_made(rt: HostRuntime) -> Result<(), OutOfMemory> {
    let made = Bytes::copy(rt.alloc(), b"35=0")?;
    let other = Bytes::copy(rt.alloc(), b"35=1")?;
    assert_eq!(rt; made.as_slice(), b"35=0".as_slice());
    assert!(rt; made != other);
    let again = Bytes::from_vec(made.into_vec());
    assert_eq!(rt; again.as_slice(), b"35=0".as_slice());
    Ok(())
}
