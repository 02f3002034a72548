// A store leaves in the backup what stands in the table, and writes only the pages whose signature is not their entry's: a page a step, or the whole bucket.
#![tactic(auto)]

ghost use Rattle.std.specs.Prelude.{◌≡◌, ◌<◌, length, Ok};
ghost use Rattle.signature.specs.Objects.{Octets};
ghost use Rattle.map.specs.Files.{pages as header_pages};
ghost use Rattle.map.specs.Reading.{reading, entry_at};
ghost use Rattle.store.specs.Steps.{stepped_of, passing, open_step, stepping};
ghost use Rattle.store.specs.Stores.{stored_of, ended_by, open_store, storing};

use map::{Entry, Header};
use units::{Bytes, Refusal};

// Where a store that is taken a page at a time has come to.
#[derive(Clone, Copy, Debug, PartialEq, Eq, Hash)]
pub struct Place {
    pub page: usize,
}

// What a step did.
#[derive(Clone, Copy, Debug, PartialEq, Eq, Hash)]
pub enum Answer {
    // the page at the place handed in
    Kept(usize),
    Written(usize),
    Finished,
}

#[derive(Clone, Copy, Debug, PartialEq, Eq, Hash)]
pub struct Step {
    pub answer: Result<Answer, Refusal>,
    pub next: Place,
}

impl Place {
    // The page at this place is kept, or written to image and map.
    pub fn step(self, table: &[u8], image: &mut [u8], map: &mut [u8]) -> Step
        ensures { stepped_of result image.new map.new ≡ stepping table.now image.old map.old self }
    {
        let opening = backup::open(
            Bytes { count: table.len() },
            Bytes { count: image.len() },
            map,
        );
        match opening {
            Err(r) => Step {
                answer: Err(r),
                next: self,
            },
            Ok(h) => {
                let mut backup = Open {
                    h,
                    table,
                    image,
                    map,
                };
                backup.step(self)
            }
        }
    }
}

// All pages, upward. The numbers of those that were written go to the list.
pub fn store(
    table: &[u8],
    image: &mut [u8],
    map: &mut [u8],
    list: &mut [usize],
) -> Result<usize, Refusal>
    ensures { stored_of result image.new map.new list.new ≡ storing table.now image.old map.old list.old }
{
    let h = backup::open(
        Bytes { count: table.len() },
        Bytes { count: image.len() },
        map,
    )?;
    let mut backup = Open {
        h,
        table,
        image,
        map,
    };
    backup.store(list)
}

// A backup that was opened, with the table that it is to hold.
// Made where it is used: a function that opens and makes it has no clause for image and map where opening refuses.
#[derive(Drop)]
struct Open<'a> {
    h: Header,
    table: &'a [u8],
    image: &'a mut [u8],
    map: &'a mut [u8],
    // a slice's elements are bytes by its type, a field's are where this says so
    ghost table_octets: { Octets table.now },
    ghost map_octets: { Octets map.now },
    ghost holds: { reading map.now ≡ Ok h },
    ghost table_length: { length table.now ≡ h.bucket.count },
    ghost image_length: { length image.now ≡ h.bucket.count },
}

impl<'a> Open<'a> {
    ghost use Rattle.store.specs.Opens.{IsAsOpened};

    // The page at the place is passed, unless the place is at the end of the pages or above it.
    fn step(&mut self, place: Place) -> Step
        ensures same_backup { IsAsOpened self.old self.new }
        ensures stepped { stepped_of result self.new.image.now self.new.map.now ≡ open_step self.old.h self.old.table.now self.old.image.now self.old.map.now place }
    {
        let k = place.page;
        let count = map::pages(self.h);
        if k > count {
            return Step {
                answer: Err(Refusal::PageNo),
                next: place,
            };
        }
        if k == count {
            return Step {
                answer: Ok(Answer::Finished),
                next: place,
            };
        }
        self.pass(k)
    }

    // A method, since `self.map` lent from a `&mut self` comes back with its length alone known.
    fn entry(&self, k: usize) -> Entry
        ensures { result ≡ entry_at self.now.h.n self.now.map.now k }
    {
        map::entry_at(self.h.n, self.map, k)
    }

    // Page k is signed once: its bytes go into the image and its signature into the entry, if it is not there already.
    fn pass(&mut self, k: usize) -> Step
        requires { k < header_pages self.old.h }
        ensures same_backup { IsAsOpened self.old self.new }
        ensures passed { stepped_of result self.new.image.now self.new.map.now ≡ passing self.old.h self.old.table.now self.old.image.now self.old.map.now k }
    {
        let up = k + 1;
        let next = Place { page: up };
        let page = map::page_at(self.h.page, self.table, k);
        let own = signature::own(self.h.n, page);
        let entry = self.entry(k);
        if backup::same(own, entry.signature) {
            return Step {
                answer: Ok(Answer::Kept(k)),
                next,
            };
        }
        let at = k * self.h.page.count;
        units::put_part(page, self.image, at);
        map::put_entry(
            Entry {
                tag: map::ENTRY_TAG,
                signature: own,
            },
            self.map,
            k,
        );
        Step {
            answer: Ok(Answer::Written(k)),
            next,
        }
    }

    // Step by step, until one says that the store is finished. List and count stand in this one function, and a struct for them would be longer.
    #[tactic(auto, using(crate::proofs::Underway::no_room))]
    fn store(&mut self, list: &mut [usize]) -> Result<usize, Refusal>
        ensures same_backup { IsAsOpened self.old self.new }
        ensures stored { stored_of result self.new.image.now self.new.map.now list.new ≡ open_store self.old.h self.old.table.now self.old.image.now self.old.map.now list.old }
    {
        let count = map::pages(self.h);
        if list.len() < count {
            return Err(Refusal::Room(count));
        }
        let mut place = Place { page: 0 };
        let mut found: usize = 0;
        loop {
            let step = self.step(place);
            let Ok(answer) = step.answer else {
                return ended(step.answer, found);
            };
            place = step.next;
            match answer {
                Answer::Kept(_) => {}
                Answer::Written(k) => {
                    list[found] = k;
                    found += 1;
                }
                Answer::Finished => return ended(step.answer, found),
            }
        }
    }
}

// What a store answers whose last step answered so.
fn ended(answer: Result<Answer, Refusal>, found: usize) -> Result<usize, Refusal>
    ensures { result ≡ ended_by answer found }
{
    answer?;
    Ok(found)
}
