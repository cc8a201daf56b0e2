ghost use Rattle.std.specs.Prelude.{◌≡◌, ◌&&◌, nat_lt, nat_eq};
ghost use Rattle.std.specs.List.{list_any};

use graphs::Uses;

// Whether a name is made twice.
pub(crate) fn is_made_twice(uses: &[Uses]) -> bool
    ensures { result ≡ list_any (λ u. nat_lt 1 u.made) uses.now }
{
    uses.iter().any(|name| name.made > 1)
}

// Whether a name that is made is written several times.
pub(crate) fn has_many_writers(uses: &[Uses]) -> bool
    ensures { result ≡ list_any (λ u. nat_lt 0 u.made && nat_lt 1 u.written) uses.now }
{
    uses.iter().any(|name| name.made > 0 && name.written > 1)
}

// Whether a name that is made is read several times.
pub(crate) fn has_many_readers(uses: &[Uses]) -> bool
    ensures { result ≡ list_any (λ u. nat_lt 0 u.made && nat_lt 1 u.read) uses.now }
{
    uses.iter().any(|name| name.made > 0 && name.read > 1)
}

// Whether a name that is made is read nowhere.
pub(crate) fn has_no_reader(uses: &[Uses]) -> bool
    ensures { result ≡ list_any (λ u. nat_lt 0 u.made && nat_eq u.read 0) uses.now }
{
    uses.iter().any(|name| name.made > 0 && name.read == 0)
}

// Whether a name that is made is written nowhere.
pub(crate) fn has_no_writer(uses: &[Uses]) -> bool
    ensures { result ≡ list_any (λ u. nat_lt 0 u.made && nat_eq u.written 0) uses.now }
{
    uses.iter().any(|name| name.made > 0 && name.written == 0)
}

// Whether a name that is not made is written several times.
pub(crate) fn is_written_twice(uses: &[Uses]) -> bool
    ensures { result ≡ list_any (λ u. nat_eq u.made 0 && nat_lt 1 u.written) uses.now }
{
    uses.iter().any(|name| name.made == 0 && name.written > 1)
}

// Whether a name that is not made is both read and written.
pub(crate) fn is_read_and_written(uses: &[Uses]) -> bool
    ensures { result
        ≡ list_any (λ u. nat_eq u.made 0 && nat_lt 0 u.read && nat_lt 0 u.written) uses.now }
{
    uses.iter()
        .any(|name| name.made == 0 && name.read > 0 && name.written > 0)
}
