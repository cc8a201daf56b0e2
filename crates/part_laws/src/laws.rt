ghost use Rattle.part_laws.specs.Laws.{EachGoesInItsManner, FiltersDivide, LinesAreMadeOfLines, NewlinesKeepLines, RunsAreGatheredBeforeHeads};

/// Each filter goes in the manner of its utility: so do cat, cut, fold, head, tail, tee, tr and uniq (POSIX.1-2017 XCU, their pages).
pub fn each_goes_in_its_manner()
    ensures { EachGoesInItsManner }
{}

/// A filter that keeps newlines makes whole lines of whole lines.
pub fn newlines_keep_lines()
    ensures { NewlinesKeepLines }
{}

/// A filter that makes a line of each line goes line by line. It makes the same of the lines after the first ones, whether they are left out
/// before or after it (POSIX.1-2017 XCU cat, cut, tee, tr).
pub fn lines_are_made_of_lines()
    ensures { LinesAreMadeOfLines }
{}

/// The first lines of runs gather together with a head after them (POSIX.1-2017 XCU uniq, head).
pub fn runs_are_gathered_before_heads()
    ensures { RunsAreGatheredBeforeHeads }
{}

/// A pipeline of filters divides into those that run on each part and those that run on the joined outputs. The first of the latter cannot run
/// on each part (POSIX.1-2017 XCU 2.9.2).
pub fn filters_divide()
    ensures { FiltersDivide }
{}
