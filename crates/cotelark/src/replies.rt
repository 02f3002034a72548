// How an answer crosses to C: the status is handed back, and the numbers and symbols beside it go where the caller says.
ghost use Rattle.std.specs.Prelude.{◌≡◌};
ghost use Rattle.cotelark.specs.Replies.{reply_of, refusing, asked as reply_asked, filled as reply_filled, listed as reply_listed};
ghost use Rattle.cotelark.specs.Replies.{signature_in, signed_of, signed as reply_signed, did_of, did as reply_did};
ghost use Rattle.cotelark.specs.Replies.{change_in, mended_of, mended as reply_mended};

use repair::{Change, Repair};
use signature::Signature;
use store::Answer;
use units::{Bytes, Refusal, Symbols};

// What a step did, as C is told it: by number, and no enum crosses.
pub const STEP_REFUSED: u32 = 0;

pub const STEP_KEPT: u32 = 1;

pub const STEP_WRITTEN: u32 = 2;

pub const STEP_FINISHED: u32 = 3;

// What a repair found, as C is told it: by number, and no enum crosses.
pub const REPAIR_REFUSED: u32 = 0;

pub const REPAIR_WHOLE: u32 = 1;

pub const REPAIR_REPAIRED: u32 = 2;

pub const REPAIR_BEYOND: u32 = 3;

pub fn done(x: usize, value: &mut usize) -> u32
    ensures { reply_of result value.new ≡ reply_of 0 x }
{
    *value = x;
    0
}

pub fn refused(r: Refusal, value: &mut usize) -> u32
    ensures { reply_of result value.new ≡ refusing r }
{
    *value = r.value();
    r.number()
}

pub fn asked(verdict: Result<(), Refusal>, value: &mut usize) -> u32
    ensures { reply_of result value.new ≡ reply_asked verdict }
{
    listed(verdict.map(|()| 0), value)
}

pub fn filled(answer: Result<Bytes, Refusal>, value: &mut usize) -> u32
    ensures { reply_of result value.new ≡ reply_filled answer }
{
    listed(answer.map(|bytes| bytes.count), value)
}

pub fn listed(answer: Result<usize, Refusal>, value: &mut usize) -> u32
    ensures { reply_of result value.new ≡ reply_listed answer }
{
    match answer {
        Ok(count) => done(count, value),
        Err(r) => refused(r, value),
    }
}

pub fn did(answer: Result<Answer, Refusal>, number: &mut u32, value: &mut usize) -> u32
    ensures { did_of (reply_of result value.new) number.new ≡ reply_did answer }
{
    match answer {
        Ok(Answer::Kept(k)) => {
            *number = STEP_KEPT;
            done(k, value)
        }
        Ok(Answer::Written(k)) => {
            *number = STEP_WRITTEN;
            done(k, value)
        }
        Ok(Answer::Finished) => {
            *number = STEP_FINISHED;
            done(0, value)
        }
        Err(r) => {
            *number = STEP_REFUSED;
            refused(r, value)
        }
    }
}

// What a repair found, through a pointer for each number, as C takes it. What it says of a change is 0 where it made none.
pub fn mended(
    repair: Result<Repair, Refusal>,
    answer: &mut u32,
    position: &mut usize,
    old: &mut u16,
    new: &mut u16,
    marked: &mut u32,
    value: &mut usize,
) -> u32
    ensures { mended_of (reply_of result value.new) answer.new position.new old.new new.new marked.new ≡ reply_mended repair }
{
    let c = change_in(repair);
    *position = c.position.count;
    *old = c.old;
    *new = c.new;
    *marked = u32::from(c.marked);
    match repair {
        Ok(Repair::Whole) => {
            *answer = REPAIR_WHOLE;
            done(0, value)
        }
        Ok(Repair::Repaired(_)) => {
            *answer = REPAIR_REPAIRED;
            done(0, value)
        }
        Ok(Repair::Beyond) => {
            *answer = REPAIR_BEYOND;
            done(0, value)
        }
        Err(r) => {
            *answer = REPAIR_REFUSED;
            refused(r, value)
        }
    }
}

fn change_in(repair: Result<Repair, Refusal>) -> Change
    ensures { result ≡ change_in repair }
{
    let Ok(Repair::Repaired(c)) = repair else {
        return Change {
            position: Symbols { count: 0 },
            old: 0,
            new: 0,
            marked: false,
        };
    };
    c
}

pub fn signature_in(n: usize, four: &[u16; 4]) -> Signature
    ensures { result ≡ signature_in n four.now }
{
    Signature {
        n,
        s1: four[0],
        s2: four[1],
        s3: four[2],
        s4: four[3],
    }
}

pub fn signed(answer: Result<Signature, Refusal>, four: &mut [u16; 4]) -> u32
    ensures { signed_of result four.new ≡ reply_signed answer four.old }
{
    match answer {
        Err(r) => r.number(),
        Ok(s) => {
            *four = [s.s1, s.s2, s.s3, s.s4];
            0
        }
    }
}
