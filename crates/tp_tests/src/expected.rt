// What is expected of a row of a table. Each assertion is much code to prove, so these serve all tests.
use std::process::Abort;

/// Expects this text of the row.
pub fn same_text(rt: &impl Abort, found: &str, expected: &str, row: &str) {
    assert_eq!(rt; found, expected, "for {row}");
}

/// Expects that this holds of the row.
pub fn holds(rt: &impl Abort, fact: bool, row: &str) {
    assert!(rt; fact, "for {row}");
}
