// The frame table: one frame for each thing that is open.
ghost use Rattle.std.specs.Prelude.{◌≡◌};
ghost use Rattle.model.specs.Layout.{list_frame};
ghost use Rattle.model.specs.Frames.{new_frame, named_frame, content_frame};

use style::WriteResult;

/// What kind of thing is open.
#[derive(Clone, Copy, PartialEq, Eq, Debug)]
pub enum Kind {
    /// A record, whose tag is open.
    Record,
    /// A row in which each item is an element of one name.
    Named,
    /// A row among the children of a record.
    Content,
    /// A list, which is one text.
    List,
}

/// One open thing. One struct for every kind, since a call changes a flag, a last result or the end of a tag where it stands.
#[derive(Clone, Copy, PartialEq, Eq, Debug)]
pub struct Frame {
    pub kind: Kind,
    /// Whether a tag that comes next in it may have an indent.
    pub flag: bool,
    /// What the last item of a content row was.
    pub last: WriteResult,
    /// Where a record's open tag ends on the stage, and 0 in rows and lists.
    pub tag: usize,
    /// How much of the name stack stays when a value in it is complete.
    pub keep: usize,
    /// Where its name begins on the name stack.
    pub from: usize,
}

impl Frame {
    /// A record that has just opened: where its tag ends, and where its name ends and begins.
    pub fn record(tag: usize, keep: usize, from: usize) -> Frame
        ensures value { result ≡ new_frame tag keep from }
    {
        Frame {
            kind: Kind::Record,
            flag: true,
            last: WriteResult::Element,
            tag,
            keep,
            from,
        }
    }

    /// A row in which each item is an element of one name: where that name ends and begins.
    pub fn named_row(flag: bool, keep: usize, from: usize) -> Frame
        ensures value { result ≡ named_frame flag keep from }
    {
        Frame {
            kind: Kind::Named,
            flag,
            last: WriteResult::Element,
            tag: 0,
            keep,
            from,
        }
    }

    /// A row among the children: how long the name stack is.
    pub fn content_row(flag: bool, keep: usize) -> Frame
        ensures value { result ≡ content_frame flag keep }
    {
        Frame {
            kind: Kind::Content,
            flag,
            last: WriteResult::SensitiveNothing,
            tag: 0,
            keep,
            from: 0,
        }
    }

    /// A list, which holds nothing.
    pub fn list() -> Frame
        ensures value { result ≡ list_frame }
    {
        Frame {
            kind: Kind::List,
            flag: false,
            last: WriteResult::SensitiveText,
            tag: 0,
            keep: 0,
            from: 0,
        }
    }
}
