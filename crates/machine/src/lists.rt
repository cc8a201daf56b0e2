ghost use Rattle.std.specs.Prelude.{◌≡◌, ◌∷◌, [], take, drop, MatchOption};

/// The first item, and the rest.
pub fn split_first<T>(items: &[T]) -> Option<(&T, &[T])>
    ensures { MatchOption result (items.now ≡ []) (λ p. items.now ≡ p.0.now ∷ p.1.now) }
{
    match items {
        [] => None,
        [item, after @ ..] => Some((item, after)),
    }
}

/// The bytes after the first `count`.
pub fn skip(bytes: &[u8], count: usize) -> &[u8]
    ensures { result.now ≡ drop count bytes.now }
{
    if count < bytes.len() {
        &bytes[count..]
    } else {
        &[]
    }
}

/// The first `count` bytes, or all if there are fewer.
pub fn prefix(bytes: &[u8], count: usize) -> &[u8]
    ensures { result.now ≡ take count bytes.now }
{
    if count < bytes.len() {
        &bytes[..count]
    } else {
        bytes
    }
}
