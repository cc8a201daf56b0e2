ghost use Rattle.std.specs.Prelude.{IsTrue};
ghost use Rattle.tr_filter.specs.Covers.{IsPlain};

// A table that leaves each byte as it is.
#[derive(Clone, Copy)]
pub(crate) struct Plain {
    pub table: [u8; 256],
    ghost plain: { IsPlain table },
}

// Whether a table leaves each byte as it is.
pub(crate) fn is_plain(table: &[u8; 256]) -> bool
    ensures { IsTrue result → IsPlain table.now }
{
    for index in 0..256usize {
        if table[index] != index as u8 {
            return false;
        }
    }
    true
}
