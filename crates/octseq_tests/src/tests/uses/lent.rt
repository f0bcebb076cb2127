//! Octets built in a slice that is lent.
use octseq_asserts::assert_equal;
use octseq_callers::lent::put_line;

#[test]
fn a_line_is_put_where_it_fits(rt: HostRuntime) {
    let mut room = *b"------";
    assert_equal!(&rt, put_line(&mut room, b"abc"), Some(4));
    assert_equal!(&rt, room, *b"abc\n--");
    assert_equal!(&rt, put_line(&mut room[..4], b"xyz"), Some(4));
    assert_equal!(&rt, room, *b"xyz\n--");
    assert_equal!(&rt, put_line(&mut room[..3], b"abc"), None);
    assert_equal!(&rt, room, *b"xyz\n--");
    assert_equal!(&rt, put_line(&mut room[..0], b""), None);
    assert_equal!(&rt, put_line(&mut room[..1], b""), Some(1));
    assert_equal!(&rt, room, *b"\nyz\n--");
}
