//! Streams of messages.
use crate::tests::unwrap;
use octseq_asserts::{assert_equal, assert_true};
use octseq_dns::{FrameError, FrameReader};

#[test]
fn a_refused_message_leaves_nothing(rt: HostRuntime) {
    let mut reader = FrameReader::new(rt.alloc(), b"\0\x02ab".as_slice());
    let found = reader.read_next();
    if matches!(found, Err(FrameError::Memory)) {
        assert_true!(&rt, reader.frame().is_empty());
        assert_true!(&rt, !unwrap(&rt, reader.read_next()));
    }
    assert_true!(&rt, unwrap(&rt, found));
    assert_equal!(&rt, reader.frame(), b"ab");
}
