// What the system says of files that may be one.
pub(crate) use held_outputs::{Facts, Kind};

// Whether two files are one regular file, or may be. The facts of a standard stream may be unknown.
pub(crate) fn may_be_one_file(one: Option<Facts>, other: Option<Facts>) -> bool {
    match (one, other) {
        (Some(one), Some(other)) => one.kind == Kind::Regular && one == other,
        (Some(known), None) | (None, Some(known)) => known.kind == Kind::Regular,
        (None, None) => false,
    }
}

// Whether two inputs are one stream, or may be. The facts of the standard input may be unknown.
pub(crate) fn may_be_one_stream(one: Option<Facts>, other: Option<Facts>) -> bool {
    match (one, other) {
        (Some(one), Some(other)) => one.is_stream_of(other),
        (Some(known), None) | (None, Some(known)) => known.is_stream(),
        (None, None) => true,
    }
}
