//! Inputs of the most bytes, and of one more. They are too long to be stored.

use super::{ACCEPTED, FIRST, HALF, TWO_PATHS, holds, joined, tell, tells};
use st_top::Status;
use std::alloc::{AllocError, Global};
use std::test::Fail;

/// A document of the most bytes, of which the last are line feeds.
fn most_bytes(alloc: Global) -> Result<Vec<u8>, AllocError> {
    let mut bytes = joined(alloc, &[TWO_PATHS, HALF, FIRST])?;
    for _ in bytes.len()..1_048_576 {
        bytes.push(b'\n')?;
    }
    Ok(bytes)
}

#[test]
fn an_input_of_the_most_bytes_is_read(rt: HostRuntime) -> Result<(), Fail> {
    let alloc = rt.alloc();
    let bytes = most_bytes(alloc)?;
    let told = tell(&rt, alloc, &["serial"], &[bytes.as_slice()]);
    drop(bytes);
    holds(tells(told, Status::Ok, ACCEPTED))
}

#[test]
fn one_byte_more_is_too_long(rt: HostRuntime) -> Result<(), Fail> {
    let alloc = rt.alloc();
    for command in ["serial", "run"] {
        let long = vec![in alloc; b'\n'; 1_048_577]?;
        let told = tell(&rt, alloc, &[command], &[long.as_slice()]);
        drop(long);
        assert!(&rt; tells(told, Status::TooLong, b"fault long\n")?, "{command}");
    }
    Ok(())
}
