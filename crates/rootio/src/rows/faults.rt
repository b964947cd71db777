//! What the library's faults print of themselves.
use rio_chain::PlanFault;
use rio_close::ReportFault;
use rio_free::FreeFault;
use rio_head::{FileFault, Reason};
use rio_session::OpenFault;
use std::alloc::Global;
use std::fmt::Display;

fn prints<F: Display>(alloc: Global, fault: &F, text: &str) -> bool {
    match format!(in alloc; "{fault}") {
        Ok(printed) => printed.as_str() == text,
        Err(_) => false,
    }
}

#[test]
fn faults(rt: HostRuntime) {
    let (place, kind) = (268, FileFault::BadKeyList);
    let text = "bad file at 268: BadKeyList";
    assert!(rt; prints(rt.alloc(), &ReportFault::BadFile { place, kind }, text));
    assert!(rt; prints(rt.alloc(), &OpenFault::BadFile { place, kind }, text));
    let (place, reason) = (304, Reason::NoChain);
    let text = "read only at 304: NoChain";
    assert!(rt; prints(rt.alloc(), &OpenFault::ReadOnly { place, reason }, text));
    let (end, wanted) = (1_999_999_000, 1000);
    let text = "full at 1999999000: 1000 bytes wanted";
    assert!(rt; prints(rt.alloc(), &PlanFault::Full { end, wanted }, text));
    let (place, wanted) = (10, 2);
    let text = "fewer than 2 bytes are left at 10";
    assert!(rt; prints(rt.alloc(), &FreeFault::Short { place, wanted }, text));
}
