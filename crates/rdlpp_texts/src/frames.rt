// The list of frames of open texts: it grows in the memory that is reserved for it, and the open ones stand at its back.
ghost use Rattle.std.specs.Prelude.{drop, take, vec_capacity, vec_len, ℕ, ◌+◌, ◌<◌, ◌≡◌, ◌≤◌};
ghost use Rattle.rdlpp_texts.specs.Opened.{IsFree};

use crate::frame::{Frame, FrameKind, NO_BOUNDS};

// So many frames are made at first: few texts of most runs are open at once.
pub(crate) const FIRST_FRAMES: usize = 16;

// A frame without an open text.
const CLOSED: Frame = Frame {
    from: 0,
    end: 0,
    parent: 0,
    kind: FrameKind::Actual,
    bounds: NO_BOUNDS,
};

// Puts closed frames after those that are there, up to `count` frames.
pub(crate) fn push_closed(frames: &mut Vec<Frame>, count: usize)
    requires more { vec_len frames.old ≤ count }
    requires reserved { count ≤ vec_capacity frames.old }
    ensures len { vec_len frames.new ≡ count }
    ensures kept { (n : ℕ) → n ≤ vec_len frames.old → take n frames.new.items ≡ take n frames.old.items }
    ensures capacity { vec_capacity frames.new ≡ vec_capacity frames.old }
{
    while frames.len() < count {
        frames.push_reserved(CLOSED);
    }
}

// Makes the list longer, by as many frames as there are, up to `depth`, and moves those that are there to its back. How many
// stand in front of them then.
#[cold]
#[inline(never)]
fn widen(frames: &mut Vec<Frame>, depth: usize) -> usize
    requires room { vec_len frames.old < depth }
    requires reserved { depth ≤ vec_capacity frames.old }
    ensures moved { drop result frames.new.items ≡ frames.old.items }
    ensures some { 0 < result }
    ensures len { vec_len frames.new ≡ vec_len frames.old + result }
    ensures few { vec_len frames.new ≤ depth }
    ensures capacity { vec_capacity frames.new ≡ vec_capacity frames.old }
{
    let len = frames.len();
    let more = len.max(1).min(depth - len);
    push_closed(frames, len + more);
    frames.copy_within(0..len, more);
    more
}

// The place of a closed frame in front of the open ones, which stand from `first` on. Where there is none yet, the list is made
// longer, by as many frames as it has, so that an opening costs constant time on the whole.
#[inline(always)]
pub(crate) fn free_frame(frames: &mut Vec<Frame>, first: usize, depth: usize) -> usize
    requires inside { first ≤ vec_len frames.old }
    requires room { vec_len frames.old < first + depth }
    requires few { vec_len frames.old ≤ depth }
    requires reserved { depth ≤ vec_capacity frames.old }
    ensures free { IsFree frames.old.items frames.new.items depth first result }
    ensures capacity { vec_capacity frames.new ≡ vec_capacity frames.old }
{
    if first == 0 {
        widen(frames, depth) - 1
    } else {
        first - 1
    }
}
