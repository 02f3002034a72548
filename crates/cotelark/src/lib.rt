// The C interface: each operation under its C name, on numbers and slices. include/cotelark.h says the same to a C compiler.
#![tactic(auto)]

mod replies;

ghost use Rattle.std.specs.Prelude.{◌≡◌};
ghost use Rattle.signature.specs.Kinds.{wide};
ghost use Rattle.signature.specs.Operations.{signing, joining, editing};
ghost use Rattle.map.specs.Making.{making};
ghost use Rattle.map.specs.Reading.{reading};
ghost use Rattle.listing.specs.Lines.{listing as map_listing, text_out};
ghost use Rattle.store.specs.Stores.{storing};
ghost use Rattle.store.specs.Steps.{stepping};
ghost use Rattle.load.specs.Loads.{asking, loading};
ghost use Rattle.repair.specs.Repairs.{repairing};
ghost use Rattle.caption.specs.Recoding.{encoding, decoding};
ghost use Rattle.caption.specs.Searches.{searching};
ghost use Rattle.cotelark.specs.Replies.{reply_of, asked, signature_in, signed_of, signed, wrote_of, wrote, found, sizes_of, read_of, read};
ghost use Rattle.cotelark.specs.Replies.{saved_of, saved, place_at, did_of, went_of, went, part_of, loaded_of, loaded};
ghost use Rattle.cotelark.specs.Replies.{mended_of, righted_of, righted};

use store::Place;
use units::{Bytes, Refusal, Symbols};

#[unsafe(no_mangle)]
pub extern "C" fn cotelark_sign(n: usize, object: &[u8], four: &mut [u16; 4]) -> u32
    ensures { signed_of result four.new ≡ signed (signing wide n object.now) four.old }
{
    replies::signed(signature::sign(n, object), four)
}

// The first part has a symbols, the second b.
#[unsafe(no_mangle)]
pub extern "C" fn cotelark_join(
    n1: usize,
    first: &[u16; 4],
    a: usize,
    n2: usize,
    second: &[u16; 4],
    b: usize,
    four: &mut [u16; 4],
) -> u32
    ensures { signed_of result four.new ≡ signed (joining wide (signature_in n1 first.now) a (signature_in n2 second.now) b) four.old }
{
    let one = replies::signature_in(n1, first);
    let other = replies::signature_in(n2, second);
    replies::signed(
        signature::join(one, Symbols { count: a }, other, Symbols { count: b }),
        four,
    )
}

#[unsafe(no_mangle)]
pub extern "C" fn cotelark_edit(
    n: usize,
    s: &[u16; 4],
    r: usize,
    old: &[u8],
    new: &[u8],
    four: &mut [u16; 4],
) -> u32
    ensures { signed_of result four.new ≡ signed (editing wide (signature_in n s.now) r old.now new.now) four.old }
{
    let page = replies::signature_in(n, s);
    replies::signed(signature::edit(page, Symbols { count: r }, old, new), four)
}

#[unsafe(no_mangle)]
pub extern "C" fn cotelark_make_map(
    n: usize,
    page: usize,
    bucket: &[u8],
    output: &mut [u8],
    value: &mut usize,
) -> u32
    ensures { wrote_of (reply_of result value.new) output.new ≡ wrote (making n page bucket.now output.old) }
{
    replies::filled(map::make(n, Bytes { count: page }, bucket, output), value)
}

// What the header says, through a pointer each, as C takes it.
#[unsafe(no_mangle)]
pub extern "C" fn cotelark_read_map(
    map: &[u8],
    n: &mut usize,
    page: &mut usize,
    bucket: &mut usize,
    pages: &mut usize,
    value: &mut usize,
) -> u32
    ensures { read_of (reply_of result value.new) (sizes_of n.new page.new bucket.new pages.new) ≡ read (reading map.now) }
{
    match map::read(map) {
        Err(b) => {
            *n = 0;
            *page = 0;
            *bucket = 0;
            *pages = 0;
            replies::refused(Refusal::from(b), value)
        }
        Ok(h) => {
            *n = h.n;
            *page = h.page.count;
            *bucket = h.bucket.count;
            *pages = map::pages(h);
            replies::done(0, value)
        }
    }
}

#[unsafe(no_mangle)]
pub extern "C" fn cotelark_list_map(map: &[u8], output: &mut [u8], value: &mut usize) -> u32
    ensures { wrote_of (reply_of result value.new) output.new ≡ wrote (text_out (map_listing map.now) output.old) }
{
    replies::filled(listing::list(map, output), value)
}

#[unsafe(no_mangle)]
pub extern "C" fn cotelark_store(
    table: &[u8],
    image: &mut [u8],
    map: &mut [u8],
    list: &mut [usize],
    value: &mut usize,
) -> u32
    ensures { saved_of (reply_of result value.new) image.new map.new list.new
        ≡ saved (storing table.now image.old map.old list.old) }
{
    replies::listed(store::store(table, image, map, list), value)
}

#[unsafe(no_mangle)]
pub extern "C" fn cotelark_step(
    place: &mut usize,
    table: &[u8],
    image: &mut [u8],
    map: &mut [u8],
    answer: &mut u32,
    value: &mut usize,
) -> u32
    ensures { went_of (did_of (reply_of result value.new) answer.new) place.new image.new map.new
        ≡ went (stepping table.now image.old map.old (place_at place.old)) }
{
    let at = Place { page: *place };
    let step = at.step(table, image, map);
    *place = step.next.page;
    replies::did(step.answer, answer, value)
}

// Where page k stands in the image.
#[unsafe(no_mangle)]
pub extern "C" fn cotelark_load_page(
    image: &[u8],
    map: &[u8],
    k: usize,
    start: &mut usize,
    bytes: &mut usize,
    value: &mut usize,
) -> u32
    ensures { loaded_of (reply_of result value.new) (part_of start.new bytes.new) ≡ loaded image.now map.now k }
{
    match load::open_page(image, map, k) {
        Err(r) => {
            *start = 0;
            *bytes = 0;
            replies::refused(r, value)
        }
        Ok(h) => {
            *start = k * h.page.count;
            *bytes = map::page_at(h.page, image, k).len();
            replies::done(0, value)
        }
    }
}

#[unsafe(no_mangle)]
pub extern "C" fn cotelark_ask_page(image: &[u8], map: &[u8], k: usize, value: &mut usize) -> u32
    ensures { reply_of result value.new ≡ asked (asking image.now map.now k) }
{
    replies::asked(load::ask_page(image, map, k), value)
}

#[unsafe(no_mangle)]
pub extern "C" fn cotelark_load_bucket(
    image: &[u8],
    map: &[u8],
    table: &mut [u8],
    value: &mut usize,
) -> u32
    ensures { wrote_of (reply_of result value.new) table.new ≡ wrote (loading image.now map.now table.old) }
{
    replies::filled(load::load_bucket(image, map, table), value)
}

// Page k of the image, by its entry.
#[unsafe(no_mangle)]
pub extern "C" fn cotelark_repair_page(
    image: &mut [u8],
    map: &[u8],
    k: usize,
    answer: &mut u32,
    position: &mut usize,
    old: &mut u16,
    new: &mut u16,
    marked: &mut u32,
    value: &mut usize,
) -> u32
    ensures { righted_of (mended_of (reply_of result value.new) answer.new position.new old.new new.new marked.new) image.new
        ≡ righted (repairing image.old map.now k) }
{
    replies::mended(
        repair::repair_page(image, map, k),
        answer,
        position,
        old,
        new,
        marked,
        value,
    )
}

#[unsafe(no_mangle)]
pub extern "C" fn cotelark_encode(caption: &[u8], output: &mut [u8], value: &mut usize) -> u32
    ensures { wrote_of (reply_of result value.new) output.new ≡ wrote (encoding 0 caption.now output.old) }
{
    replies::filled(caption::encode(caption, output), value)
}

#[unsafe(no_mangle)]
pub extern "C" fn cotelark_decode(caption: &[u8], output: &mut [u8], value: &mut usize) -> u32
    ensures { wrote_of (reply_of result value.new) output.new ≡ wrote (decoding 0 caption.now output.old) }
{
    replies::filled(caption::decode(caption, output), value)
}

#[unsafe(no_mangle)]
pub extern "C" fn cotelark_search(
    caption: &[u8],
    pattern: &[u8],
    list: &mut [usize],
    value: &mut usize,
) -> u32
    ensures { wrote_of (reply_of result value.new) list.new ≡ found (searching 0 caption.now pattern.now list.old) }
{
    replies::listed(caption::search(caption, pattern, list), value)
}
