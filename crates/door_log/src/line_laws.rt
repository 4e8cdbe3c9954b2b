//! Laws of the text of a log. Each function does nothing: its contract is the law.

ghost use Rattle.door_log.specs.LineLaws.{IdentifiersReadBack, LinesStayApart};

/// No two identifiers are written in the same way.
pub fn identifiers_read_back()
    ensures { IdentifiersReadBack }
{}

/// A line has one newline, at its end, whatever identifiers it names; so a log is the text of one list of lines alone.
pub fn lines_stay_apart()
    ensures { LinesStayApart }
{}
