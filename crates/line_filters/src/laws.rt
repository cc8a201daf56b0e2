ghost use Rattle.line_filters.specs.CutKeeps.{CutsCountBytes};
ghost use Rattle.line_filters.specs.HeadWants.{HeadsWantWhatIsToCome};
ghost use Rattle.line_filters.specs.TailKeeps.{TailsKeepTheLast};
ghost use Rattle.line_filters.specs.TailNeeds.{TailsNeedOnlyAnEnd};

/// cut keeps only the number of the bytes of a line under -b and -c.
pub fn cuts_keep_only_a_number()
    ensures { CutsCountBytes }
{}

/// head wants an input only while its header or a line of it is still to come.
pub fn heads_want_what_is_to_come()
    ensures { HeadsWantWhatIsToCome }
{}

/// tail keeps at most the last N newlines, or N bytes, after the first part that it keeps, and
/// nothing under `+N`. Each part has at most 4096 bytes, or as many as the longest piece that came.
pub fn tails_keep_the_last()
    ensures { TailsKeepTheLast }
{}

/// tail of the last N lines, or bytes, needs only an end of its input that has them and, for lines, begins with one.
pub fn tails_need_only_an_end()
    ensures { TailsNeedOnlyAnEnd }
{}
