ghost use Rattle.byte_filters.specs.FoldCuts.{LinesAreCut};
ghost use Rattle.byte_filters.specs.FoldKeeps.{FoldsKeepOneLine, FoldsKeepTwoSegments};
ghost use Rattle.byte_filters.specs.WcNeeds.{BytesNeedOnlyALength};
ghost use Rattle.byte_filters.specs.Words.{WordsAreCounted};

/// wc counts the strings of at least one byte that white space delimits.
pub fn words_are_counted()
    ensures { WordsAreCounted }
{}

/// fold cuts the content of a line into segments that fit, or have one byte, or grow next to a
/// backspace or a carriage return; and without the newlines between them they are the content.
pub fn lines_are_cut()
    ensures { LinesAreCut }
{}

/// fold keeps no more than a part of one line.
pub fn folds_keep_one_line()
    ensures { FoldsKeepOneLine }
{}

/// fold keeps no more than twice as many bytes as the segment has with which they begin.
pub fn folds_keep_two_segments()
    ensures { FoldsKeepTwoSegments }
{}

/// wc that counts neither newlines nor words needs only the number of an input's bytes.
pub fn wc_of_bytes_needs_only_a_length()
    ensures { BytesNeedOnlyALength }
{}
