//! Tokens of a line from a place behind its end.
use rio_token::{TextFault, Tokens};

#[test]
fn behind_the_end(rt: HostRuntime) {
    let mut tokens = Tokens::new(b"ls", 9);
    assert_eq!(rt; tokens.bad(), TextFault::BadText { place: 2 });
    assert_eq!(rt; tokens.expect_end(), Ok(()));
}
