//! Assertions that are one call of a function without a contract, so that a story of many is quick to prove. A failure tells the call whose answer
//! was another.
use std::fmt::Debug;
use std::process::Abort;

/// Asserts what holds.
macro_rules! holds {
    ($rt:expr; $answer:expr $(,)?) => {
        $crate::asserts::must_hold($rt, $answer, stringify!($answer))
    };
}

/// Asserts that an answer is the one that is wanted.
macro_rules! equal {
    ($rt:expr; $answer:expr, $wanted:expr $(,)?) => {
        $crate::asserts::must_equal($rt, $answer, $wanted, stringify!($answer))
    };
}

/// The same of a number, or none.
macro_rules! gives {
    ($rt:expr; $answer:expr, $wanted:expr $(,)?) => {
        $crate::asserts::must_give($rt, $answer, $wanted, stringify!($answer))
    };
}

/// The same of two numbers, or none.
macro_rules! gives_two {
    ($rt:expr; $answer:expr, $wanted:expr $(,)?) => {
        $crate::asserts::must_give_two($rt, $answer, $wanted, stringify!($answer))
    };
}

pub(crate) use equal;
pub(crate) use gives;
pub(crate) use gives_two;
pub(crate) use holds;

/// What `holds!` calls.
pub fn must_hold<R: Abort>(rt: &R, answer: bool, call: &str) {
    assert!(rt; answer, "{call} is false");
}

/// What `equal!` calls.
pub fn must_equal<R: Abort, T: PartialEq + Debug + Drop>(rt: &R, answer: T, wanted: T, call: &str) {
    agree(rt, &answer, &wanted, call);
}

/// What `gives!` calls. Its types are known, so a story does not prove with each call that what it answers can be compared and shown.
pub fn must_give<R: Abort>(rt: &R, answer: Option<i32>, wanted: Option<i32>, call: &str) {
    agree(rt, &answer, &wanted, call);
}

/// What `gives_two!` calls. Its types are known, so a story does not prove with each call that what it answers can be compared and shown.
pub fn must_give_two<R: Abort>(
    rt: &R,
    answer: Option<(i32, i32)>,
    wanted: Option<(i32, i32)>,
    call: &str,
) {
    agree(rt, &answer, &wanted, call);
}

// The same of what is lent: a function that owns both is slow to prove.
fn agree<R: Abort, T: PartialEq + Debug>(rt: &R, answer: &T, wanted: &T, call: &str) {
    assert_eq!(rt; answer, wanted, "{call}");
}
