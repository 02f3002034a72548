// Loading from a backup: a page as the caller's own image bytes, or the whole bucket. Nothing damaged is handed out.
#![tactic(auto)]

ghost use Rattle.std.specs.Prelude.{◌≡◌, length};
ghost use Rattle.units.specs.Filling.{outcome_of};
ghost use Rattle.units.specs.Naming.{lowest_named};
ghost use Rattle.map.specs.Files.{pages as header_pages};
ghost use Rattle.map.specs.Reading.{header_of, entry_at};
ghost use Rattle.backup.specs.Openings.{opened};
ghost use Rattle.backup.specs.Backups.{agrees};
ghost use Rattle.load.specs.Loads.{asking, loaded_page, damaged, open_load, loading};

use map::Header;
use units::{Bytes, Refusal};

// Page k as it stands in the image. A refused load is an empty part.
pub fn load_page<'a>(image: &'a [u8], map: &[u8], k: usize) -> &'a [u8]
    ensures { result.now ≡ loaded_page image.now map.now k }
{
    let Ok(h) = open_page(image, map, k) else {
        return &image[..0];
    };
    map::page_at(h.page, image, k)
}

// The same inputs put as a question: why page k is not loaded, or that it is.
pub fn ask_page(image: &[u8], map: &[u8], k: usize) -> Result<(), Refusal>
    ensures { result ≡ asking image.now map.now k }
{
    open_page(image, map, k)?;
    Ok(())
}

// That page k may be loaded, with the header of its map; or why not.
pub fn open_page(image: &[u8], map: &[u8], k: usize) -> Result<Header, Refusal>
    ensures { result ≡ opened (asking image.now map.now k) (header_of map.now) }
{
    let length = Bytes { count: image.len() };
    let h = backup::open(length, length, map)?;
    if k >= map::pages(h) {
        return Err(Refusal::PageNo);
    }
    let backup = Open { h, image, map };
    if !backup.whole(k) {
        return Err(Refusal::Damaged(k));
    }
    Ok(h)
}

// All of the image goes to the table, when every page of it was found whole.
pub fn load_bucket(image: &[u8], map: &[u8], table: &mut [u8]) -> Result<Bytes, Refusal>
    ensures { outcome_of result table.new ≡ loading image.now map.now table.old }
{
    let h = backup::open(
        Bytes { count: table.len() },
        Bytes { count: image.len() },
        map,
    )?;
    let backup = Open { h, image, map };
    backup.move_to(table)
}

// A backup that was opened.
#[derive(Clone, Copy)]
struct Open<'a> {
    h: Header,
    image: &'a [u8],
    map: &'a [u8],
}

impl<'a> Open<'a> {
    // Whether page k of the image has its entry's signature.
    fn whole(&self, k: usize) -> bool
        ensures { result ≡ agrees self.now.h (entry_at self.now.h.n self.now.map.now) self.now.image.now k }
    {
        let own = signature::own(self.h.n, map::page_at(self.h.page, self.image, k));
        let entry = map::entry_at(self.h.n, self.map, k);
        backup::same(own, entry.signature)
    }

    // The lowest page that is not.
    fn lowest_damaged(&self) -> Option<usize>
        ensures { result ≡ lowest_named (damaged self.now.h self.now.image.now self.now.map.now) (header_pages self.now.h) }
    {
        let count = map::pages(self.h);
        for k in 0..count {
            if !self.whole(k) {
                return Some(k);
            }
        }
        None
    }

    // All of the image, when no page is damaged.
    fn move_to(&self, table: &mut [u8]) -> Result<Bytes, Refusal>
        requires { length self.now.image.now ≡ length table.old }
        ensures { outcome_of result table.new ≡ open_load self.now.h self.now.image.now self.now.map.now table.old }
    {
        if let Some(k) = self.lowest_damaged() {
            return Err(Refusal::Damaged(k));
        }
        units::put_part(self.image, table, 0);
        Ok(Bytes {
            count: self.image.len(),
        })
    }
}
