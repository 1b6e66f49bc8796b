//! Bytes that the tests of depots store, and pieces that they fetch.
use std::alloc::{AllocError, Global};
use vox_depot::{Depot, FetchFault};

/// Returns the result of a fetch into a buffer of this size.
pub(crate) fn fetched<D: Depot>(
    alloc: Global,
    depot: &mut D,
    name: &str,
    from: u64,
    room: usize,
) -> Result<Result<Vec<u8>, FetchFault>, AllocError>
    requires { D.may_fetch name.now }
{
    let mut buf = vec![in alloc; 0u8; room]?;
    match depot.fetch(name, from, buf.as_mut_slice()) {
        Ok(count) => {
            buf.truncate(count);
            Ok(Ok(buf))
        }
        Err(fault) => Ok(Err(fault)),
    }
}

/// Returns bytes that differ from index to index.
pub(crate) fn pattern(alloc: Global, count: u32) -> Result<Vec<u8>, AllocError> {
    (0..count).map(|k| (k % 251) as u8).collect(alloc)
}
