// The beginning of the end of an input that its reader needs.
ghost use Rattle.std.specs.Prelude.{◌≡◌, ◌≤◌, length, drop};
ghost use Rattle.collector.specs.InputEnds.{IsLeftOf};
ghost use Rattle.file_stores.specs.inner.Ends.{end_of, Finds};

use collector::NeededEnd;
use machine::newlines;

// What a search for a newline found that goes from the end of some bytes to their front.
#[derive(Clone, Copy)]
pub(crate) enum Search {
    // It is before this place.
    Found(u64),
    // It is before these bytes. This many newlines are still to be passed over.
    Before(u64),
}

// Searches these bytes, from their end, for a newline. It passes over this many of them.
pub(crate) fn newline_from_end(bytes: &[u8], passed: u64) -> Search
    ensures { Finds passed bytes.now result }
{
    let count = newlines(bytes) as u64;
    if count <= passed {
        return Search::Before(passed - count);
    }
    let mut left = passed;
    let mut end = bytes.len();
    while end > 0 {
        if bytes[end - 1] == b'\n' {
            if left == 0 {
                return Search::Found(end as u64);
            }
            left -= 1;
        }
        end -= 1;
    }
    Search::Before(left)
}

// The place at which the last lines begin: this many of them, and at least one.
fn last_lines(bytes: &[u8], count: u64) -> usize
    ensures within { result ≤ length bytes.now }
    ensures value { drop result bytes.now ≡ end_of (NeededEnd.Lines count) bytes.now }
    ensures left { IsLeftOf (NeededEnd.Lines count) bytes.now (drop result bytes.now) }
{
    if bytes.is_empty() {
        return 0;
    }
    // The last byte ends the last line, or is a part of it.
    match newline_from_end(&bytes[..bytes.len() - 1], count.saturating_sub(1)) {
        Search::Found(place) => place as usize,
        Search::Before(_) => 0,
    }
}

// The place at which the last bytes begin.
fn last_bytes(bytes: &[u8], count: u64) -> usize
    ensures within { result ≤ length bytes.now }
    ensures value { drop result bytes.now ≡ end_of (NeededEnd.Bytes count) bytes.now }
    ensures left { IsLeftOf (NeededEnd.Bytes count) bytes.now (drop result bytes.now) }
{
    bytes.len().saturating_sub(count as usize)
}

// The place at which the end of these bytes begins that is needed.
pub(crate) fn begin_of_end(bytes: &[u8], needed: NeededEnd) -> usize
    ensures within { result ≤ length bytes.now }
    ensures value { drop result bytes.now ≡ end_of needed bytes.now }
    ensures left { IsLeftOf needed bytes.now (drop result bytes.now) }
{
    match needed {
        NeededEnd::Lines(count) => last_lines(bytes, count),
        NeededEnd::Bytes(count) => last_bytes(bytes, count),
    }
}
