//! Why a word has no value.

/// Why a word has no value.
#[derive(Clone, Copy, Debug, PartialEq, Eq, Drop)]
pub enum NumberFault {
    /// The word has another form.
    NotANumber,
    /// It has the form, and more than `MOST_DIGITS` digits from the first that is not `0` to the last.
    TooLong,
}
