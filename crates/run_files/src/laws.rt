//! Laws of log files and of what an audit finds.
ghost use Rattle.run_files.specs.Audits.{FilesNumberTheirVersion, VerdictsAreUnique};
ghost use Rattle.run_files.specs.Files.{FormatOneIsVersionOne};

/// With format 1 the log file of a run is of version 1.
#[tactic(auto, using(crate::proofs::FormatOne::version_one))]
pub fn format_1_is_version_1()
    ensures { FormatOneIsVersionOne }
{}

/// A log file of version 2 has the number 2 in its bytes 8 to 11, and one of version 1 hasn't.
pub fn files_number_their_version()
    ensures { FilesNumberTheirVersion }
{}

/// Bytes have one verdict, which is also told as a function. They agree if and only if they are those of
/// the file; else they differ first at one place.
#[tactic(auto, using(crate::proofs::Verdicts::verdicts))]
pub fn verdicts_are_unique()
    ensures { VerdictsAreUnique }
{}
