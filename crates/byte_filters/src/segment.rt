ghost use Rattle.std.specs.Prelude.{◌≡◌, ◌<◌, ◌≤◌, ◌+◌, ◌-◌, ◌∷◌, drop, length, min, take, nat_le, not, ◌&&◌, ◌||◌, false, Some, None, if◌then◌else◌};
ghost use Rattle.std.specs.List.{prefix_len};
ghost use Rattle.command_words.specs.Bytes.{is_blank_byte};
ghost use Rattle.commands.specs.Fold.{is_back, last_break};
ghost use Rattle.byte_filters.specs.inner.Scans.{column_within, scan_of, begun, found_before, is_plain, unfit, next_step, scanned, is_mover};

use crate::lane::{CHUNK, lane_run, last_cut};
use command_words::is_blank;
use commands::FoldForm;

// The last of the bytes that can move the column in their own way or end a line.
pub(crate) const LAST: u8 = 13;

// What is known of the bytes of a segment that has not ended.
#[derive(Clone, Copy)]
pub(crate) struct Scan {
    // The column after them, if all fit.
    pub column: usize,
    // Whether one did not fit.
    pub over: bool,
    // The last of them.
    pub last: u8,
    // How many come before the last.
    pub at: usize,
    // How many there are up to the last blank at which the line may be cut, or 0.
    pub found: usize,
}

// What the next byte does to a segment.
#[derive(Clone, Copy)]
pub(crate) enum SegmentStep {
    // The segment goes on with it.
    Goes(Scan),
    // The segment ends after this many bytes.
    Ends(usize),
}

// The end of a segment, as far as bytes tell.
#[derive(Clone, Copy)]
pub(crate) enum SegmentEnd {
    // The segment ends after this many bytes, and the line goes on.
    Cut(usize),
    // The line ends: a newline follows this many bytes.
    Line(usize),
    // It goes on.
    Open(Scan),
}

// Whether a byte is a backspace or a carriage return.
fn is_back(byte: u8) -> bool
    ensures { result ≡ is_back byte }
{
    (byte == 8) | (byte == 13)
}

// The column, if it is within the width.
fn within(width: usize, column: usize) -> Option<usize>
    ensures { result ≡ (if nat_le column width then Some column else None) }
{
    if column <= width { Some(column) } else { None }
}

// The column after a byte that moves it in its own way, if it fits: a backspace, a tab or a carriage return.
fn moved_within(spec: &FoldForm, column: usize, byte: u8) -> Option<usize>
    ensures { spec.now.bytes ≡ false → result ≡ column_within spec.now column byte }
{
    match byte {
        8 => within(spec.width, column.saturating_sub(1)),
        13 => Some(0),
        9 => within(spec.width, column.checked_add(8 - column % 8)?),
        _ => within(spec.width, column.checked_add(1)?),
    }
}

// The column after a byte, if it fits.
fn column_within(spec: &FoldForm, column: usize, byte: u8) -> Option<usize>
    ensures { result ≡ column_within spec.now column byte }
{
    if byte > 13 || spec.bytes {
        return within(spec.width, column.checked_add(1)?);
    }
    moved_within(spec, column, byte)
}

// What is known once this byte is there, which fits or does not.
fn scan_of(column: Option<usize>, last: u8, at: usize, found: usize) -> Scan
    ensures { result ≡ scan_of column last at found }
{
    match column {
        None => Scan {
            column: 0,
            over: true,
            last,
            at,
            found,
        },
        Some(column) => Scan {
            column,
            over: false,
            last,
            at,
            found,
        },
    }
}

// A segment that begins with this byte.
pub(crate) fn begun(spec: &FoldForm, byte: u8) -> Scan
    ensures { result ≡ begun spec.now byte }
{
    scan_of(column_within(spec, 0, byte), byte, 0, 0)
}

// The place after the last blank at which a line may be cut, once the next byte is known.
fn found_before(spec: &FoldForm, scan: Scan, byte: u8) -> usize
    requires { scan.at < usize.MAX }
    ensures { result ≡ found_before spec.now scan byte }
{
    if spec.spaces && is_blank(scan.last) && (spec.bytes || !is_back(byte)) {
        scan.at + 1
    } else {
        scan.found
    }
}

// The next byte if one does not fit.
fn unfit(spec: &FoldForm, scan: Scan, byte: u8) -> SegmentStep
    requires { scan.at < usize.MAX }
    ensures { result ≡ unfit spec.now scan byte }
{
    if !spec.bytes && (is_back(scan.last) || is_back(byte)) {
        let found = found_before(spec, scan, byte);
        SegmentStep::Goes(scan_of(None, byte, scan.at + 1, found))
    } else {
        SegmentStep::Ends(scan.at + 1)
    }
}

// The next byte.
fn next_step(spec: &FoldForm, scan: Scan, byte: u8) -> SegmentStep
    requires { scan.at < usize.MAX }
    ensures { result ≡ next_step spec.now scan byte }
{
    if scan.over {
        return unfit(spec, scan, byte);
    }
    let found = found_before(spec, scan, byte);
    match column_within(spec, scan.column, byte) {
        Some(column) => SegmentStep::Goes(scan_of(Some(column), byte, scan.at + 1, found)),
        None => {
            if found > 0 {
                SegmentStep::Ends(found)
            } else {
                unfit(spec, scan, byte)
            }
        }
    }
}

// What the bytes after the known ones add, if one may not have fitted.
fn scanned_on(spec: &FoldForm, scan: Scan, bytes: &[u8]) -> SegmentEnd
    requires { scan.at + 1 ≤ length bytes.now }
    ensures { result ≡ scanned spec.now scan (drop (scan.at + 1) bytes.now) }
{
    let mut scan = scan;
    for i in scan.at + 1..bytes.len() {
        if bytes[i] == b'\n' {
            return SegmentEnd::Line(scan.at + 1);
        }
        match next_step(spec, scan, bytes[i]) {
            SegmentStep::Goes(next) => scan = next,
            SegmentStep::Ends(count) => return SegmentEnd::Cut(count),
        }
    }
    SegmentEnd::Open(scan)
}

// The place after the last blank at which a line may be cut, once the byte after `at` others is
// known.
fn found_at(spec: &FoldForm, found: usize, last: u8, at: usize, byte: u8) -> usize
    ensures { result
        ≡ (if spec.now.spaces && (is_blank_byte last && (spec.now.bytes || not (is_back byte)))
        then at else found) }
{
    if spec.spaces & is_blank(last) & (spec.bytes | !is_back(byte)) {
        at
    } else {
        found
    }
}

// How many bytes in front move the column by one, and are no newline.
pub(crate) fn few_plain(bytes: &[u8]) -> usize
    ensures value { result ≡ prefix_len is_plain bytes.now }
    ensures within { result ≤ length bytes.now }
{
    for (i, byte) in bytes.iter().enumerate() {
        if *byte <= 13 {
            return i;
        }
    }
    bytes.len()
}

// The place after the last blank at which a line may be cut, once the next bytes are there, which
// neither end the line nor move the column in their own way.
#[inline(always)]
fn run_found(spec: &FoldForm, scan: Scan, bytes: &[u8], count: usize) -> usize
    requires room { scan.at + 65 ≤ length bytes.now }
    requires count { (1 ≤ count) × (count ≤ 64) }
    requires run { count ≤ prefix_len (λ x. not (is_mover x)) (drop (scan.at + 1) bytes.now) }
    ensures { result ≡ last_break spec.now scan.found scan.at count
        (scan.last ∷ drop (scan.at + 1) bytes.now) }
{
    if spec.spaces {
        last_cut(scan.found, scan.last, bytes, scan.at, count)
    } else {
        scan.found
    }
}

// How many of the next 64 bytes come before the first that ends the line, or can move the column in
// its own way, and fit.
#[inline(always)]
fn fitting(spec: &FoldForm, scan: Scan, bytes: &[u8]) -> usize
    requires { scan.at + 65 ≤ length bytes.now }
    ensures value { result
        ≡ min (prefix_len (λ x. not (is_mover x)) (take 64 (drop (scan.at + 1) bytes.now)))
        (spec.now.width - scan.column) }
    ensures few { result ≤ 64 }
    ensures run { result ≤ prefix_len (λ x. not (is_mover x)) (drop (scan.at + 1) bytes.now) }
{
    let room = spec.width.saturating_sub(scan.column);
    lane_run(bytes, scan.at + 1).min(room)
}

// What is known once the next bytes of a lane that move the column by one and fit are there.
#[inline(always)]
fn skipped(spec: &FoldForm, scan: Scan, bytes: &[u8]) -> Scan
    requires { (scan.at + 1 ≤ length bytes.now) × (scan.over ≡ false) }
    ensures same { scanned spec.now result (drop (result.at + 1) bytes.now)
        ≡ scanned spec.now scan (drop (scan.at + 1) bytes.now) }
    ensures ahead { (scan.at ≤ result.at) × (result.at + 1 ≤ length bytes.now)
        × (result.over ≡ false) }
{
    if bytes.len() - scan.at <= CHUNK {
        return scan;
    }
    let count = fitting(spec, scan, bytes);
    if count == 0 {
        return scan;
    }
    let Some(column) = scan.column.checked_add(count) else {
        return scan;
    };
    Scan {
        column,
        over: false,
        last: bytes[scan.at + count],
        at: scan.at + count,
        found: run_found(spec, scan, bytes, count),
    }
}

// What the bytes after the known ones add.
#[inline(always)]
fn scanned_by(spec: &FoldForm, scan: Scan, bytes: &[u8]) -> SegmentEnd
    requires { scan.at + 1 ≤ length bytes.now }
    ensures { result ≡ scanned spec.now scan (drop (scan.at + 1) bytes.now) }
{
    if scan.over {
        return scanned_on(spec, scan, bytes);
    }
    let mut now = scan;
    while now.at + 1 < bytes.len() {
        now = skipped(spec, now, bytes);
        let i = now.at + 1;
        if i == bytes.len() {
            break;
        }
        let byte = bytes[i];
        if byte == b'\n' {
            return SegmentEnd::Line(i);
        }
        let Some(column) = column_within(spec, now.column, byte) else {
            return scanned_on(spec, now, bytes);
        };
        let found = found_at(spec, now.found, now.last, i, byte);
        now = Scan {
            column,
            over: false,
            last: byte,
            at: i,
            found,
        };
    }
    SegmentEnd::Open(now)
}

// The same. For lines that are not cut after blanks the loop is compiled a second time, without the
// search for blanks.
pub(crate) fn scanned(spec: &FoldForm, scan: Scan, bytes: &[u8]) -> SegmentEnd
    requires { scan.at + 1 ≤ length bytes.now }
    ensures { result ≡ scanned spec.now scan (drop (scan.at + 1) bytes.now) }
{
    if spec.spaces {
        return scanned_by(spec, scan, bytes);
    }
    let form = FoldForm {
        bytes: spec.bytes,
        spaces: false,
        width: spec.width,
    };
    scanned_by(&form, scan, bytes)
}
