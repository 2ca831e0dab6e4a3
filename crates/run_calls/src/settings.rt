//! The first line of a case.

/// What kind of case it is.
pub(crate) fn kind(head: &str) -> &str {
    head.split_whitespace().next().unwrap_or("")
}

/// The value of a setting; empty where it isn't set.
pub(crate) fn setting<'a>(head: &'a str, name: &str) -> &'a str {
    let mut is_next = false;
    for word in head.split_whitespace() {
        if is_next {
            return word;
        }
        is_next = word == name;
    }
    ""
}

/// The value of a setting that is a number; 0 where it isn't set.
pub(crate) fn number(head: &str, name: &str) -> u64 {
    setting(head, name).parse::<u64>().unwrap_or(0)
}
