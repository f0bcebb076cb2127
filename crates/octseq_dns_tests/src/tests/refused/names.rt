//! Names made from labels.
use crate::tests::unwrap;
use octseq_asserts::assert_equal;
use octseq_dns::Name;
use octseq_dns::error::FromLabelsError;

#[test]
fn a_name_is_made_or_memory_was_refused(rt: HostRuntime) {
    let labels: &[&[u8]] = &[b"www", b"example"];
    let made = Name::<Vec<u8>>::from_labels(rt.alloc(), labels);
    if let Err(error) = &made {
        assert_equal!(&rt, *error, FromLabelsError::Memory);
    }
    let name = unwrap(&rt, made);
    let wire = b"\x03www\x07example\x00".as_slice();
    assert_equal!(&rt, name.as_slice(), wire);
}
