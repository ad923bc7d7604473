//! Assertions that are one call of a function without a contract, so that a story of many is quick to prove. A failure tells the call whose answer
//! was another.
use std::fmt::Debug;
use std::process::Abort;

/// Asserts what holds.
macro_rules! holds {
    ($rt:expr; $answer:expr $(,)?) => {
        $crate::asserts::must_hold($rt, $answer, stringify!($answer))
    };
}

/// Asserts that an answer is the one that is wanted.
macro_rules! equal {
    ($rt:expr; $answer:expr, $wanted:expr $(,)?) => {
        $crate::asserts::must_equal($rt, $answer, $wanted, stringify!($answer))
    };
}

pub(crate) use equal;
pub(crate) use holds;

/// What `holds!` calls.
pub fn must_hold<R: Abort>(rt: &R, answer: bool, call: &str) {
    assert!(rt; answer, "{call} is false");
}

/// What `equal!` calls.
pub fn must_equal<R: Abort, T: PartialEq + Debug + Drop>(rt: &R, answer: T, wanted: T, call: &str) {
    agree(rt, &answer, &wanted, call);
}

// The same of what is lent: a function that owns both is slow to prove.
fn agree<R: Abort, T: PartialEq + Debug>(rt: &R, answer: &T, wanted: &T, call: &str) {
    assert_eq!(rt; answer, wanted, "{call}");
}
