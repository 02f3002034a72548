// The components of an object, without a product: a relation of α folds it by exclusive or alone until few symbols are left, and those are divided in words.
#![tactic(auto)]

ghost use Rattle.std.specs.Prelude.{◌≡◌, ℕ, ◌+◌, ◌%◌, ◌≤◌, ◌<◌, List, length, get_or, take, refl};
ghost use Rattle.std.specs.Fn.{FnReturnsAt};
ghost use Rattle.std.proofs.Common.{rules};
ghost use Rattle.components.specs.Relations.{gathered, in_bytes, pair_far, four_far};
ghost use Rattle.components.specs.Relations.{Relation as Known};
ghost use Rattle.components.specs.Windows.{Down, Landed};
ghost use Rattle.components.specs.Components.{signature};
ghost use Rattle.components.proofs.Relations.{Keeps, pair_far_keeps, four_far_keeps};
ghost use Rattle.field.specs.Field.{GF16};
ghost use Rattle.words.specs.Rows.{two, four};
ghost use Rattle.fold.specs.Folding.{reach, Far, Fits, Kept, Added};

use words::{Four, Two};

// A relation of α by which long objects are folded.
trait Relation {
    ghost known: { Known };

    // For how many components it holds.
    ghost up_to: { ℕ };

    // The bytes that it leaves.
    ghost REACH: { ℕ };

    const REACH: usize;

    // An object of no more bytes is not folded.
    const SHORT: usize;

    // In bytes. A function, since the ghost member beside a constant that is a slice would have to give its address.
    fn offsets() -> &'static [usize]
        ensures { result.now ≡ in_bytes known.offsets };

    // What the loops rest on.
    ghost reached: { REACH ≡ reach known };

    ghost keeps: { Keeps up_to known };

    ghost far: { Far known };
}

// x^938 = x^186 + 1
struct PairFar;

impl Relation for PairFar {
    ghost known = { pair_far };

    ghost up_to = { 2 };

    ghost REACH = { 1876 };

    const REACH: usize = 1876;

    const SHORT: usize = 4096;

    ghost reached = { refl };

    ghost keeps = { pair_far_keeps };

    ghost far = { Prim.search rules };

    fn offsets() -> &'static [usize] {
        &[1504, 1876]
    }
}

// x^796 = x^241 + x^83 + x^80 + 1
struct FourFar;

impl Relation for FourFar {
    ghost known = { four_far };

    ghost up_to = { 4 };

    ghost REACH = { 1592 };

    const REACH: usize = 1592;

    const SHORT: usize = 2048;

    ghost reached = { refl };

    ghost keeps = { four_far_keeps };

    ghost far = { Prim.search rules };

    fn offsets() -> &'static [usize] {
        &[1110, 1426, 1432, 1592]
    }
}

// Component 1.
pub fn first(object: &[u8]) -> u16
    ensures { result ≡ signature GF16 2 object.now 1 }
{
    of_few::<PairFar, 10068, _, _>(object, words::first)
}

// Components 1 and 2.
pub fn first_two(object: &[u8]) -> Two
    ensures { result ≡ two object.now }
{
    of_few::<PairFar, 10068, _, _>(object, words::first_two)
}

// Components 1 to 4.
pub fn first_four(object: &[u8]) -> Four
    ensures { result ≡ four object.now }
{
    of_few::<FourFar, 9784, _, _>(object, words::first_four)
}

// What is answered of the object or, if it is long, of the few bytes that a relation leaves of it in a window of so many bytes.
fn of_few<R: Relation, const WINDOW: usize, T, F: Fn(&[u8]) -> T>(object: &[u8], answer: F) -> T
    requires answers { F.IsAlwaysCallable answer }
    requires roomy { reach R.known + reach R.known ≤ WINDOW }
    requires even { WINDOW % 2 ≡ 0 }
    requires small { WINDOW < 65536 }
    ensures { (few : List ℕ) × Kept R.up_to object.now few × FnReturnsAt F.Fn answer few result }
{
    if object.len() <= R::SHORT {
        return answer(object);
    }
    let mut window = [0u8; WINDOW];
    fold::<R>(object, &mut window);
    answer(&window[..R::REACH])
}

// The cut-off block first, then the whole blocks, from the top down; the window's lowest bytes are then left, symbols of the same components.
fn fold<R: Relation>(page: &[u8], window: &mut [u8])
    requires { Fits R.known window.old }
    ensures { Kept R.up_to page.now (take R.REACH window.new) }
{
    let block = window.len() - R::REACH;
    let (whole, rest) = page.split_at(page.len() / block * block);
    down::<R>(rest, window);
    for part in whole.rchunks_exact(block) {
        // What it held makes room for the part.
        window.copy_within(..R::REACH, block);
        down::<R>(part, window);
    }
    land::<R>(window);
}

// A block is taken into a window, from its top down. By index: each byte is made of bytes above it in the same window.
fn down<R: Relation>(block: &[u8], window: &mut [u8])
    requires { length block.now + R.REACH ≤ length window.old }
    ensures { Down (in_bytes R.known.offsets) block.now window.old window.new }
{
    for i in (0..block.len()).rev() {
        window[i] = gather::<R>(block[i], window, i);
    }
}

// x and what stands at each offset above i, summed.
fn gather<R: Relation>(x: u8, window: &[u8], i: usize) -> u8
    requires { i + R.REACH < length window.now }
    ensures { result ≡ gathered x (in_bytes R.known.offsets) (λ k. get_or window.now k 0) i }
{
    let mut sum = x;
    for offset in R::offsets() {
        sum ^= window[i + *offset];
    }
    sum
}

// What a window leaves: its lowest bytes, and those that stand at each offset above them, summed.
fn land<R: Relation>(window: &mut [u8])
    requires { R.REACH ≤ length window.old }
    ensures { Landed (in_bytes R.known.offsets) R.REACH window.old window.new }
{
    for offset in R::offsets() {
        add(window, *offset, R::REACH);
    }
}

// What the window holds from one place to another, added to its first bytes. By index: the two parts are of one window, and may overlap.
fn add(window: &mut [u8], from: usize, to: usize)
    requires { (from ≤ to) × (to ≤ length window.old) }
    ensures { Added from to window.old window.new }
{
    for i in 0..to - from {
        window[i] ^= window[from + i];
    }
}
