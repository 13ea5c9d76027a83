//! A script of calls. What it prints is in its contract.
use xet_track::run_script;

#[test]
fn scripts(rt: HostRuntime) {
    let mut out = Vec::new(rt.alloc());
    assert!(rt; run_script(rt.alloc(), b"file 3\nstatus", &mut out) == Ok(true));
    assert!(rt; run_script(rt.alloc(), b"file 10\nbogus 1\nstatus\n", &mut out) == Ok(false));
}
