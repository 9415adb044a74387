// A table whose file fails.
use session::{LoadFault, load};
use std::alloc::Global;
use std::test::Fail;
use tm_io::{MemFile, MemShelf};

const PCF: &[u8] = b"T1\t\t\t\t3\t12\t\t\t\tN\tR\n";

// A folder `mib` of one table, of whose file a read fails here.
fn folder(alloc: Global, at: u64) -> Result<MemShelf, Fail> {
    let pcf = MemFile {
        name: String::from_str(alloc, "mib/pcf.dat")?,
        bytes: Vec::from_slice(alloc, PCF)?,
        fails: Vec::from_slice(alloc, &[at])?,
    };
    Ok(MemShelf::new(vec![in alloc; pcf]?, 7))
}

#[test]
fn a_file_that_fails_is_told_at_each_octet(rt: HostRuntime) -> Result<(), Fail> {
    let alloc = rt.alloc();
    for at in 0..PCF.len() {
        let mut shelf = folder(alloc, at as u64)?;
        assert_eq!(rt;
            load(alloc, "mib", &mut shelf).err(),
            Some(LoadFault::Failed)
        );
    }
    Ok(())
}
