//! Names and texts.

use std::alloc::Global;
use std::process::Abort;
use svc_values::{Name, Text};

pub fn name(rt: &impl Abort, alloc: Global, text: &str) -> Name {
    Name::new(alloc, text).expect(rt, "a name")
}

pub fn text(rt: &impl Abort, alloc: Global, text: &str) -> Text {
    Text::new(alloc, text).expect(rt, "a text")
}

/// The name of a customer.
pub fn who(customer: i64) -> &'static str {
    match customer {
        1 => "c1",
        _ => "c2",
    }
}
