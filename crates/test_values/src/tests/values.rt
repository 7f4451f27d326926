//! What the tests ask of a value: its texts and its hash.
use std::fmt::{Debug, Display};
use std::hash::{DefaultHasher, Hash, Hasher};
use std::process::Abort;

/// What `{}` shows of a value.
pub fn displays<A: Display>(rt: &(impl Abort + Alloc), shown: &A, text: &str) {
    match format!(in rt.alloc(); "{shown}") {
        Ok(shown) => assert!(rt; shown.as_str() == text),
        Err(_) => panic!(rt; "no memory for a text"),
    }
}

/// What `{:?}` shows of a value.
pub fn shows<A: Debug>(rt: &(impl Abort + Alloc), shown: &A, text: &str) {
    match format!(in rt.alloc(); "{shown:?}") {
        Ok(shown) => assert!(rt; shown.as_str() == text),
        Err(_) => panic!(rt; "no memory for a text"),
    }
}

/// What `{:#?}` shows of a value.
pub fn shows_long<A: Debug>(rt: &(impl Abort + Alloc), shown: &A, text: &str) {
    match format!(in rt.alloc(); "{shown:#?}") {
        Ok(shown) => assert!(rt; shown.as_str() == text),
        Err(_) => panic!(rt; "no memory for a text"),
    }
}

/// What a hasher makes of a value.
pub fn hashed<A: Hash>(value: &A) -> u64 {
    let mut hasher = DefaultHasher::new();
    value.hash(&mut hasher);
    hasher.finish()
}
