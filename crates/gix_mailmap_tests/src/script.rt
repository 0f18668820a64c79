//! What each script asserts.
use mailmap_scripts::answered;
use std::process::Abort;

/// Asserts that all calls of a script answer as it says.
pub fn assert_script(rt: &(impl Abort + AllocGlobal), script: &str) {
    let text = answered(rt.alloc(), script);
    assert!(rt; text.as_str() == script, "{text}");
}
