// What is expected of a row of a table. Each assertion is much code to prove, so these serve all tests.
use std::process::Abort;

/// Expects this text of the row.
pub fn same_text(rt: &impl Abort, found: &str, expected: &str, row: &str) {
    assert_eq!(rt; found, expected, "for {row}");
}

/// Expects the bytes of this text of the row.
pub fn same_bytes(rt: &impl Abort, found: &[u8], expected: &str, row: &str) {
    same_text(
        rt,
        str::from_utf8(found).unwrap_or("no text"),
        expected,
        row,
    );
}

/// Expects this number of the row.
pub fn same_number(rt: &impl Abort, found: u64, expected: u64, row: &str) {
    assert_eq!(rt; found, expected, "for {row}");
}

/// Expects that this holds of the row.
pub fn holds(rt: &impl Abort, fact: bool, row: &str) {
    assert!(rt; fact, "for {row}");
}
