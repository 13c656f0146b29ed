// The reader of a frame's items, over the cursor of `wire_items`: a struct that holds the frame and a place in it.
#![tactic(auto)]

ghost use Rattle.std.specs.Prelude.{◌≡◌};
ghost use Rattle.std.specs.Iterator.{at_most};
ghost use Rattle.wire_rules.specs.Items.{step_at};

use wire_rules::{Cursor, Step};

// An item: where it begins, its kind, where its bytes start, and how many there are.
#[derive(Clone, Copy)]
pub struct FrameItem {
    pub at: usize,
    pub kind: u16,
    pub start: usize,
    pub len: usize,
}

// A frame and a place in it: gives one item at a time.
#[derive(Clone, Copy)]
pub struct ItemReader<'a> {
    pub frame: &'a [u8],
    pub at: usize,
    pub left: usize,
}

impl<'a> ItemReader<'a> {
    ghost use Rattle.wire_rules.specs.Items.{step_at};

    pub fn new(frame: &'a [u8], c: Cursor) -> ItemReader<'a>
        ensures { (result.frame ≡ frame.entry) × (result.at ≡ c.at) × (result.left ≡ c.left) }
    {
        ItemReader {
            frame,
            at: c.at,
            left: c.left,
        }
    }

    // What stands at the reader's place: an item, the end, or the offset that does not fit.
    pub fn step(&self) -> Step
        ensures { result ≡ step_at self.now.frame.now self.now.at self.now.left }
    {
        wire_items::step_at(self.frame, self.at, self.left)
    }
}

// The items from the reader's place on, as far as the list is well formed.
impl<'a> Iterator for ItemReader<'a> {
    ghost use Rattle.wire_reader.specs.Reader.{Gives};

    type Item = FrameItem;

    ghost next_gives = { Gives };

    ghost remaining = { λ r. at_most r.left };

    fn next(&mut self) -> Option<FrameItem> {
        match self.step() {
            Step::Item {
                kind,
                start,
                len,
                next,
            } => {
                let at = self.at;
                self.at = next.at;
                self.left = next.left;
                Some(FrameItem {
                    at,
                    kind,
                    start,
                    len,
                })
            }
            Step::End | Step::Broken(_) => None,
        }
    }
}

// ---- the same as functions, where a walk keeps its own cursor

pub fn reader<'a>(frame: &'a [u8], c: Cursor) -> ItemReader<'a>
    ensures { (result.frame ≡ frame.entry) × (result.at ≡ c.at) × (result.left ≡ c.left) }
{
    ItemReader::new(frame, c)
}

pub fn next<'a>(r: ItemReader<'a>) -> Step
    ensures { result ≡ step_at r.entry.frame.now r.entry.at r.entry.left }
{
    r.step()
}

// What a reader over the frame gives at a cursor; the item's own cursor is where the next one reads.
pub fn read_at(frame: &[u8], c: Cursor) -> Step
    ensures { result ≡ step_at frame.now c.at c.left }
{
    next(reader(frame, c))
}
