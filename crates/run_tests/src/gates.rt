// The gate that the workers of a live run call.
use crate::folders::{PACKET, feed, words};
use crate::lives::LiveObjects;
use crate::pools::{COUPLED, Couples};
use mibtm_tool::tool;
use run_model::Code;
use std::sync::atomic::Ordering;
use std::test::Fail;

// Each worker takes one packet of a couple: the first waits in the gate for the second.
#[test]
fn two_workers_of_a_live_run_are_inside_the_gate_at_once(rt: HostRuntime) -> Result<(), Fail> {
    let alloc = rt.alloc();
    let mut packets = Vec::new(alloc);
    for _ in 0..COUPLED {
        packets.extend_from_slice(PACKET)?;
    }
    let mut objects = LiveObjects::new(alloc, &[], &packets, b"go\n")?;
    objects.feed = feed(alloc, &packets, &[], 4096)?;
    let gate = Couples::new(alloc)?;
    let given = words(alloc, &["live", "mib", "feed", "desk", "--workers", "2"])?;
    let status = tool(
        &rt,
        alloc,
        &given,
        &mut objects.tables,
        &mut objects.feed,
        &mut objects.desk,
        &mut objects.out,
        &mut objects.replies,
        &gate,
    );
    assert_eq!(rt; status.code, Code::Ok);
    assert!(rt; !gate.is_late.load(Ordering::SeqCst));
    assert_eq!(rt; gate.calls.load(Ordering::SeqCst), COUPLED);
    Ok(())
}
