//! The memory that combinations take.

use std::alloc::Global;
use std::mem::size_of;
use std::test::Fail;
use tuples::Combo;

const COMBO_BYTES: usize = size_of::<Combo<Global>>();

#[test]
fn a_combination_takes_at_most_64_bytes(rt: HostRuntime) -> Result<(), Fail> {
    assert!(rt; COMBO_BYTES <= 64, "{COMBO_BYTES} bytes");
    Ok(())
}
