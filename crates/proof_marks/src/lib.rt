//! Marks for what stands in a body for its proof, which leave nothing in the built program.
#![tactic(auto)]

/// As `unreachable!()`: the proof has to show that control never comes here.
///
/// An arm with `unreachable!()` is proved too, but the built program still tests for that arm, and
/// stops there. What this would do, a write through an element of an array that has none, is no
/// behaviour of any program. So LLVM drops the way that leads here, and each test that only decided
/// on it.
#[macro_export]
macro_rules! unreached {
    () => {{
        let mut none: [&mut u8; 0] = [];
        if none.is_empty() {
            unreachable!()
        }
        *none[0] = 0;
        unreachable!()
    }};
}

/// A call that only reads, made for what its contract says. Its result is dropped, so LLVM drops
/// the call.
#[macro_export]
macro_rules! recall {
    ($call:expr) => {
        let _ = $call;
    };
}
