// The meaning of records: what each call does, what it says, and the laws of whole runs. Each law is the contract of a function
// of its own, since a contract is what names a theorem; no code runs in them.
#![tactic(auto)]

ghost use Rattle.model.specs.Sheets.{TenSheets};
ghost use Rattle.model.specs.Pairs.{MetAndNotMet};
ghost use Rattle.model.specs.Readings.{Readings};
ghost use Rattle.model.specs.Laws.{StringsToldApart, AnswersByTheTable, MemorySuffices, WantOfMemory, RefusedMeansUnchanged, IndentsAlone, NoIndentAfterText, ReadsBack, AttributesChangePlaces};
ghost use Rattle.model.specs.Indents.{DepthOfIndents};
ghost use Rattle.model.specs.Flags.{IndentsWhereDue};
ghost use Rattle.model.specs.Taken.{RowsAndSteps};

mod frame;
mod place;

pub use frame::{Frame, Kind};
pub use place::Place;

/// The ten sheets worked by hand come out as they should.
pub fn law_ten_sheets()
    ensures law { TenSheets }
{}

/// Each refusal is met by a run, and not met where its ground is removed.
pub fn law_met_and_not_met()
    ensures law { MetAndNotMet }
{}

/// Where the rules could be read in two ways, small runs show the one that holds.
pub fn law_readings()
    ensures law { Readings }
{}

/// Well-formed strings are told from all others, and how far the others are well-formed.
pub fn law_strings_told_apart()
    ensures law { StringsToldApart }
{}

/// Every call is refused on the ground of the first row that applies, or accepted.
pub fn law_answers_by_the_table()
    ensures law { AnswersByTheTable }
{}

/// The rows bar what has no step, and nothing that has one but for want of memory, bytes, names and permission.
pub fn law_rows_and_steps()
    ensures law { RowsAndSteps }
{}

/// What a writer holds fits its memory, and what a sink holds and the room left in it are its size.
pub fn law_memory_suffices()
    ensures law { MemorySuffices }
{}

/// A call is refused for want of memory only where the writer would not fit its memory after it.
pub fn law_want_of_memory()
    ensures law { WantOfMemory }
{}

/// A refused call leaves model, sink and room as they were.
pub fn law_refused_means_unchanged()
    ensures law { RefusedMeansUnchanged }
{}

/// An unindented sink is read as exactly the trees of the records finished into it.
pub fn law_reads_back()
    ensures law { ReadsBack }
{}

/// An indentation changes only the indents, and which tags have one follows from the accepted calls.
pub fn law_indents_alone()
    ensures law { IndentsAlone }
{}

/// No indent stands straight after a text, or before a root's start tag.
pub fn law_no_indent_after_text()
    ensures law { NoIndentAfterText }
{}

/// An indent is as deep as records are open around its tag.
pub fn law_depth_of_indents()
    ensures law { DepthOfIndents }
{}

/// A call writes an indent exactly where one is due: by the flag of the innermost record or row, and never after a text.
pub fn law_indents_where_due()
    ensures law { IndentsWhereDue }
{}

/// An attribute's field and the child field next to it may change places.
pub fn law_attributes_change_places()
    ensures law { AttributesChangePlaces }
{}
