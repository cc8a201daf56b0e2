use std::fmt;

/// A number of bytes. It is printed in B below 1,000, otherwise with one digit after the point, cut
/// off: in kB, MB, GB, TB, PB or EB, each a thousand times the one before.
#[derive(Clone, Copy, Debug, PartialEq, Eq)]
pub struct Bytes(pub u64);

impl fmt::Display for Bytes {
    fn fmt<W: fmt::Write>(&self, f: &mut fmt::Formatter<W>) -> fmt::Result {
        let bytes = self.0;
        if bytes < 1_000 {
            return write!(f, "{bytes} B");
        }
        let (tenths, unit) = tenths_of(bytes);
        let units = tenths / 10;
        let tenth = tenths % 10;
        write!(f, "{units}.{tenth} {unit}")
    }
}

// How many tenths of its greatest unit that is, and the unit.
fn tenths_of(bytes: u64) -> (u64, &'static str) {
    match bytes {
        0..=999_999 => (bytes / 100, "kB"),
        1_000_000..=999_999_999 => (bytes / 100_000, "MB"),
        1_000_000_000..=999_999_999_999 => (bytes / 100_000_000, "GB"),
        1_000_000_000_000..=999_999_999_999_999 => (bytes / 100_000_000_000, "TB"),
        1_000_000_000_000_000..=999_999_999_999_999_999 => (bytes / 100_000_000_000_000, "PB"),
        _ => (bytes / 100_000_000_000_000_000, "EB"),
    }
}

/// A number of seconds. It is printed in seconds below a minute, then in minutes and seconds below
/// an hour, and then in hours and minutes; from 100 hours on, as more than 99.
#[derive(Clone, Copy, Debug, PartialEq, Eq)]
pub struct Seconds(pub u64);

impl fmt::Display for Seconds {
    fn fmt<W: fmt::Write>(&self, f: &mut fmt::Formatter<W>) -> fmt::Result {
        let all = self.0;
        let seconds = all % 60;
        let minutes = all / 60 % 60;
        let hours = all / 3_600;
        match all {
            0..=59 => write!(f, "{seconds} s"),
            60..=3_599 => write!(f, "{minutes} min {seconds} s"),
            3_600..=359_999 => write!(f, "{hours} h {minutes} min"),
            _ => write!(f, "over 99 h"),
        }
    }
}
