// The stores of a sequence of calls. The functions take a sequence's store as a slice, and ask for its length, here and in replays: with an
// array in their place a caller's slice would not do.
ghost use Rattle.std.specs.Prelude.{◌≡◌, ◌*◌, ◌≤◌, length};
ghost use Rattle.usb_store.specs.Layout.{store_length};
ghost use Rattle.sequences.specs.Stores.{resized, put, edited, store_before, old_store, store_after};

use recorded::head::{Asked, EDIT_LEN, u32_at};

// Copies src into dst: cut to dst's length, or with zeros up to it.
#[tactic(auto, unfolding(crate::specs::Stores::resized), using(crate::proofs::Stores::copied))]
fn resize(dst: &mut [u8], src: &[u8])
    ensures { dst.new ≡ resized (length dst.old) src.now }
{
    let n = src.len().min(dst.len());
    dst.fill(0);
    dst[..n].copy_from_slice(&src[..n]);
}

// Puts the byte of an edit in; an offset past the end changes nothing.
fn put(store: &mut [u8], edit: &[u8; EDIT_LEN])
    ensures { store.new ≡ put store.old edit.now }
{
    let offset = u32_at(edit, 0) as usize;
    if offset < store.len() {
        store[offset] = edit[4];
    }
}

// The first n edits of a buffer: the head counts them, and the buffer is longer.
fn edit(store: &mut [u8], edits: &[u8], n: usize)
    requires { n * 5 ≤ length edits.now }
    ensures { store.new ≡ edited n edits.now store.old }
{
    let (chunks, _) = edits.as_chunks();
    for chunk in &chunks[..n] {
        put(store, chunk);
    }
}

// The sequence's store before a call.
#[tactic(auto, unfolding(crate::specs::Stores::store_before))]
pub fn begin(asked: Asked, store: &mut [u8])
    requires { length store.old ≡ store_length }
    ensures { store.new ≡ store_before asked store.old }
{
    if asked.flags % 2 == 1 {
        store.fill(0);
    }
}

// A call's old store.
#[tactic(auto, unfolding(crate::specs::Stores::old_store))]
pub fn old_store(asked: Asked, old: &mut [u8], edits: &[u8], store: &[u8])
    requires { (length old.old ≡ asked.old_len) × (asked.edits * 5 ≤ length edits.now) }
    ensures { old.new ≡ old_store asked edits.now store.now }
{
    resize(old, store);
    edit(old, edits, usize::from(asked.edits));
}

// The sequence's store after a call.
#[tactic(auto, unfolding(crate::specs::Stores::store_after))]
pub fn carry(asked: Asked, new: &[u8], store: &mut [u8])
    requires { length store.old ≡ store_length }
    ensures { store.new ≡ store_after asked new.now store.old }
{
    if asked.flags / 2 % 2 == 1 {
        resize(store, new);
    }
}
