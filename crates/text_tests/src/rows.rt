//! A row of text with a part of each kind.
use kmp_base::Row;

#[test]
fn a_row_is_its_parts(rt: HostRuntime) {
    let mut row = Row::new();
    row.text("R ");
    row.hex8(0xd);
    row.append(b" ");
    row.hex4(0xbe0f);
    assert!(rt; row.bytes() == b"R 0000000d be0f".as_slice());
}
