//! How the tests ask: a call that has to succeed, and a sentence that has to be so. A test that ends here has no exit of its own, at which all that
//! lives is dropped, and prints in one place.
use std::process::Abort;

/// What a call gave. The test ends where it gave nothing.
pub fn must<T, E: Drop>(rt: &impl Abort, given: Result<T, E>, case: &str) -> T {
    match given {
        Ok(value) => value,
        Err(_) => panic!(rt; "failed: {case}"),
    }
}

/// The test ends where this isn't so.
pub fn check(rt: &impl Abort, is_so: bool, case: &str) {
    assert!(rt; is_so, "{case}");
}

/// The test ends where this isn't so, or couldn't be found out.
pub fn check_found<E: Drop>(rt: &impl Abort, is_so: Result<bool, E>, case: &str) {
    let is_so = must(rt, is_so, case);
    assert!(rt; is_so, "{case}");
}
