//! What is so of each line, and of each text in one.
//! A law is a function without parameters that does nothing: its clause speaks of every event or text. A crate above cites it by calling it.
ghost use Rattle.std.specs.Prelude.{◌≡◌, ℕ, ◌+◌, ◌<◌, List, ◌++◌, Some};
ghost use Rattle.fts_log.specs.Quoting.{quoted, unquoted, IsLine};
ghost use Rattle.fts_log.specs.EventLines.{event_line};
ghost use Rattle.fts_log.specs.Moments.{days_before, year_of, days_before_month, month_of, LiesIn};
ghost use Rattle.fts_log.specs.declared.events.Event.{Event};

/// The line of each event is one line, whatever its names hold: its only byte below 32 is the line feed at its end.
pub fn each_event_is_one_line()
    ensures line { (moment : ℕ) (event : Event) → IsLine (event_line moment event) }
{}

/// A quoted text ends at its own last quote, whatever it holds and whatever stands behind it: what is read there is the text.
pub fn quoted_texts_are_read_back()
    ensures back { (text rest : List ℕ) → unquoted (quoted text ++ rest) ≡ Some (text, rest) }
{}

/// A day of the years from 1970 to 9999 lies in the year that a line names, and a day of a year in the month.
pub fn days_lie_in_their_year_and_month()
    ensures year { (day : ℕ) → day < days_before 10000 → LiesIn days_before (year_of day) day }
    ensures month { (leap day : ℕ) → day < 365 + leap → LiesIn (days_before_month leap) (month_of leap day) day }
{}
