// One field of a map, read by its tag's rule, and the reader that takes off one field after the other.
#![tactic(auto)]

ghost use Rattle.std.specs.Prelude.{◌≡◌, ◌+◌, ◌≤◌, length};
ghost use Rattle.reader.specs.Fields.{field_at, under_rule, long};
ghost use Rattle.reader.specs.Readers.{reader_at, advanced_of, advancing};

use units::Symbols;

// The tags of a map's fields, in the order of the file. A tag is the file's own byte, and no enum: any byte may stand there.
pub const N_TAG: u8 = 1;

pub const PAGE_TAG: u8 = 2;

pub const BUCKET_TAG: u8 = 3;

pub const ENTRY_TAG: u8 = 4;

// A field that keeps its tag's rule: where its value stands, and where the next field begins.
#[derive(Clone, Copy, Debug, PartialEq, Eq, Hash)]
pub struct Tagged {
    pub tag: u8,
    pub value: usize,
    pub next: usize,
}

// A map's bytes, and the place that reading has come to.
#[derive(Clone, Copy)]
pub struct Reader<'a> {
    pub bytes: &'a [u8],
    pub place: usize,
}

impl<'a> Reader<'a> {
    // A reader that begins at a place.
    pub fn new(bytes: &'a [u8], place: usize) -> Reader<'a>
        ensures { result ≡ reader_at bytes.entry place }
    {
        Reader { bytes, place }
    }

    // The field at the reader's place is taken off, in a map of n components. The reader stays where a field is broken.
    pub fn next<'s>(&'s mut self, n: usize) -> Option<Tagged>
        ensures { advanced_of result self.new ≡ advancing n self.old }
    {
        let field = self.field(n)?;
        self.place = field.next;
        Some(field)
    }

    // The field whose tag stands at the reader's place, in a map of n components.
    fn field(&self, n: usize) -> Option<Tagged>
        ensures { result ≡ field_at n self.now.bytes.now self.now.place }
    {
        if self.bytes.len() < 3 || self.place > self.bytes.len() - 3 {
            return None;
        }
        match self.bytes[self.place] {
            0 => None,
            N_TAG => self.under_rule(1),
            PAGE_TAG | BUCKET_TAG => self.under_rule(4),
            ENTRY_TAG => self.under_rule(units::bytes_of(Symbols { count: n }).count),
            5..=255 => None,
        }
    }

    // The field by its rule: the length due, and a value that is not cut off.
    fn under_rule(&self, size: usize) -> Option<Tagged>
        requires { self.now.place + 3 ≤ length self.now.bytes.now }
        ensures { result ≡ under_rule (long size) self.now.bytes.now self.now.place }
    {
        if signature::two_bytes(self.bytes, self.place + 1) != size {
            return None;
        }
        let value = self.place + 3;
        if size > self.bytes.len() - value {
            return None;
        }
        Some(Tagged {
            tag: self.bytes[self.place],
            value,
            next: value + size,
        })
    }
}

// The field at a place, as a reader that begins there takes it off.
pub fn read_field(n: usize, map: &[u8], at: usize) -> Option<Tagged>
    ensures { result ≡ field_at n map.now at }
{
    Reader::new(map, at).next(n)
}
