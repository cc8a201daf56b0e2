// The letters of the options of each utility, as for getopt: a colon after a letter says that it takes an argument.

pub(crate) const CAT: &[u8] = b"u";

pub(crate) const CUT: &[u8] = b"b:c:f:d:ns";

pub(crate) const FOLD: &[u8] = b"bsw:";

pub(crate) const HEAD: &[u8] = b"n:";

pub(crate) const PASTE: &[u8] = b"d:s";

pub(crate) const TAIL: &[u8] = b"n:c:";

pub(crate) const TEE: &[u8] = b"ai";

pub(crate) const UNIQ: &[u8] = b"cduf:s:";

pub(crate) const WC: &[u8] = b"cmlw";

/// The letters of the options of the utility with this name, each with a colon after it if the option takes an argument.
pub fn letters_of(name: &[u8]) -> Option<&'static [u8]> {
    match name {
        b"cat" => Some(CAT),
        b"cut" => Some(CUT),
        b"fold" => Some(FOLD),
        b"head" => Some(HEAD),
        b"paste" => Some(PASTE),
        b"tail" => Some(TAIL),
        b"tee" => Some(TEE),
        b"tr" => Some(tr_words::LETTERS),
        b"uniq" => Some(UNIQ),
        b"wc" => Some(WC),
        _ => None,
    }
}
