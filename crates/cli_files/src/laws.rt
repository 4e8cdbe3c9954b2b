//! Laws of looks at a path.
ghost use Rattle.cli_files.specs.Laws.{SameIsJudgedOnce, SettledIsJudged, UnchangedIsQuiet};

/// As long as a file is what is in force nothing is judged.
pub fn unchanged_file_is_quiet()
    ensures { UnchangedIsQuiet }
{}

/// However often the same content is found, it is judged at most once.
pub fn same_content_is_judged_once()
    ensures { SameIsJudgedOnce }
{}

/// What is found twice in a row is judged, unless it is in force or was refused last.
pub fn settled_content_is_judged()
    ensures { SettledIsJudged }
{}
