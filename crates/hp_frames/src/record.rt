//! What a bank keeps of each frame, and the frames that are linked through these records.
ghost use Rattle.std.specs.Prelude.{◌≡◌, ◌+◌, ◌-◌, ◌<◌, ◌^◌, length, slice_set, vec_capacity, None, Some};
ghost use Rattle.hp_frames.specs.Records.{next_of, record_at, HasFirst};

use hp_base::Frame;

/// What a bank keeps of a frame. The free frames are linked, and so are the retired ones: the record of each
/// names the next.
#[derive(Clone, Copy)]
pub enum Record {
    Free { next: Option<Frame> },
    Hand,
    /// With its word.
    Placed(u64),
    Retired { next: Option<Frame> },
}

impl Record {
    // The next frame that it names, if any.
    fn next(self) -> Option<Frame>
        ensures { result ≡ next_of self }
    {
        match self {
            Record::Free { next } | Record::Retired { next } => next,
            Record::Hand | Record::Placed(_) => None,
        }
    }
}

/// Frames that are linked through their records: the first of them, and how many they are.
#[derive(Clone, Copy)]
pub struct Chain {
    first: Option<Frame>,
    count: u32,
}

impl Chain {
    /// No frames.
    pub const fn new() -> Self
        ensures first { result.first ≡ None }
        ensures count { result.count ≡ 0 }
    {
        Chain {
            first: None,
            count: 0,
        }
    }

    /// How many there are.
    pub const fn count(&self) -> u32
        ensures { result ≡ self.now.count }
    {
        let Chain { count, .. } = self;
        *count
    }

    /// Takes the first one.
    pub fn take(&mut self, records: &[Record]) -> Frame
        requires { HasFirst self.old (length records.now) }
        ensures first { self.old.first ≡ Some result }
        ensures rest { self.new.first ≡ next_of (record_at records.now result) }
        ensures count { self.new.count + 1 ≡ self.old.count }
    {
        let first = self.first;
        let Some(frame) = first else { unreachable!() };
        self.first = records[frame.number() as usize].next();
        self.count -= 1;
        frame
    }

    /// Puts a frame before the others, and tells which one its record has to name as the next.
    pub fn put(&mut self, frame: Frame) -> Option<Frame>
        requires { self.old.count + 1 < 2 ^ 32 }
        ensures next { result ≡ self.old.first }
        ensures first { self.new.first ≡ Some frame }
        ensures count { self.new.count ≡ self.old.count + 1 }
    {
        let next = self.first;
        self.first = Some(frame);
        self.count += 1;
        next
    }
}

/// The frame goes elsewhere.
pub fn move_frame(records: &mut Vec<Record>, frame: Frame, state: Record)
    requires { frame < length records.old.items }
    ensures items { records.new.items ≡ slice_set records.old.items frame state }
    ensures capacity { vec_capacity records.new ≡ vec_capacity records.old }
{
    records[frame.number() as usize] = state;
}
