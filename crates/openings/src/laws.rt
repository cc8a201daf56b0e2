//! The laws of the words that the contracts are written in. Each is the contract of a function that does nothing.
ghost use Rattle.openings.specs.Contents.{RefusedIsKept};
ghost use Rattle.openings.specs.Openings.{OpeningsKeepLogs, StrictOpensNoOutput};

/// However far the openings of a plan went, files that were open before keep their logs, and such inputs their
/// contents.
pub fn open_files_keep_their_logs()
    ensures { OpeningsKeepLogs }
{}

/// If an operand is missing, a strict opening opened no output, whichever fault it returned.
pub fn a_strict_opening_that_lacks_an_operand_opens_no_output()
    ensures { StrictOpensNoOutput }
{}

/// If no two outputs of a plan write to one destination, that of a refused output is unchanged.
pub fn a_refused_output_keeps_its_file()
    ensures { RefusedIsKept }
{}
