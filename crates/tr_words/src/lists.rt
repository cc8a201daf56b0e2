ghost use Rattle.std.specs.Prelude.{◌≡◌, ◌≤◌, length, IsTrue};
ghost use Rattle.tr_words.specs.Classes.{begins};

// Whether a string begins with these bytes.
pub(crate) fn begins(front: &[u8], string: &[u8]) -> bool
    ensures value { result ≡ begins front.now string.now }
    ensures long { IsTrue result → length front.now ≤ length string.now }
{
    string.starts_with(front)
}
