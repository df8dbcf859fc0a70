mod definitions;
mod scripts;
mod statements;
mod tokens;

use std::process::Abort;

// Expects that what is read of a text is what it should be.
fn expect(rt: &impl Abort, text: &str, holds: bool) {
    assert!(rt; holds, "{text}");
}
