use crate::folders::{call, sink};
use run_model::Code;
use std::test::Fail;
use tm_io::MemShelf;

// How the summary begins, as `checks/drill.py` counts.
const FRONT: &[u8] = b"SPID 1 COUNT 2155\nSP";

#[test]
fn a_fault_of_the_output_leaves_the_front_of_a_drill(rt: HostRuntime) -> Result<(), Fail> {
    let alloc = rt.alloc();
    let mut out = sink(alloc, &[20], 50)?;
    let code = call(
        &rt,
        alloc,
        &["drill", "0"],
        &mut MemShelf::new(Vec::new(alloc), 1),
        &mut MemShelf::new(Vec::new(alloc), 1),
        &mut out,
    )?;
    assert_eq!(rt; code, Code::OutFault);
    assert_eq!(rt; out.bytes(), FRONT);
    Ok(())
}
