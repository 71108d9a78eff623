// Changes to a frame of the caller's table; each takes the whole table, as it was lent.
ghost use Rattle.std.specs.Prelude.{◌≡◌, ◌<◌, length, slice_index_or, slice_set};
ghost use Rattle.engine.specs.Frames.{no_frame, settled_frame, longer_tag};

use model::{Frame, Kind};
use style::WriteResult;

// The frame once a value with this result is complete in it.
fn settled(frame: Frame, res: WriteResult) -> Frame
    ensures value { result ≡ settled_frame res frame }
{
    match frame.kind {
        Kind::Record => Frame {
            flag: res.allow_indent(),
            ..frame
        },
        Kind::Named => Frame {
            flag: true,
            ..frame
        },
        Kind::Content => Frame {
            flag: res.allow_indent(),
            last: res,
            ..frame
        },
        Kind::List => frame,
    }
}

/// In the frame at `at`, a value with this result is complete. Answers the frame as it was.
pub fn settle_frame(frames: &mut [Frame], at: usize, res: WriteResult) -> Frame
    requires { at < length frames.old }
    ensures value { result ≡ slice_index_or frames.old at no_frame }
    ensures frames { frames.new ≡ slice_set frames.old at (settled_frame res (slice_index_or frames.old at no_frame)) }
    ensures len { length frames.new ≡ length frames.old }
{
    let top = frames[at];
    frames[at] = settled(top, res);
    top
}

/// The open tag of the record at `at` now ends at `tag`.
pub fn lengthen_tag(frames: &mut [Frame], at: usize, tag: usize)
    requires { at < length frames.old }
    ensures frames { frames.new ≡ slice_set frames.old at (longer_tag tag (slice_index_or frames.old at no_frame)) }
    ensures len { length frames.new ≡ length frames.old }
{
    frames[at].tag = tag;
}
