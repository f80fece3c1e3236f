// The refusals at entry, in document 01's order: "either store not 36,864 bytes, or a root speed above 3 .., is -2; then -16; ..".
// Of the new store only the length counts, and lidrumak lends it to be written: to pass the slice is no plainer. A hub, a port, a child
// and a speed are u32, as the C interface has them.
ghost use Rattle.std.specs.Prelude.{◌≡◌, false, length};
ghost use Rattle.usb_store.specs.Layout.{store_length};
ghost use Rattle.usb_model.specs.Entry.{wrong_length, is_unused, no_hub, no_port, root_verdict, hub_verdict};
ghost use Rattle.usb_entry.specs.Replies.{told, Tests, Judges};

use usb_sound::sound;
use usb_store::{HUB, PLACES, STORE_LEN, USED, byte_at};
use usb_types::types::Refusal;

fn wrong_length(old: &[u8], new_len: usize) -> bool
    ensures { Judges wrong_length old.now new_len result }
{
    old.len() != STORE_LEN || new_len != STORE_LEN
}

// A place above 31, or one that is not used.
fn is_unused(old: &[u8], place: u32) -> bool
    requires { length old.now ≡ store_length }
    ensures { Tests (λ l. is_unused l place) old.now result }
{
    let place = place as usize;
    place >= PLACES || byte_at(old, place, USED) == 0
}

// A place that is unused or not a hub.
fn no_hub(old: &[u8], hub: u32) -> bool
    requires { length old.now ≡ store_length }
    ensures { Tests (λ l. no_hub l hub) old.now result }
{
    is_unused(old, hub) || byte_at(old, hub as usize, HUB) == 0
}

#[tactic(auto, unfolding(usb_model::specs::Entry::root_verdict))]
pub fn root_verdict(old: &[u8], new_len: usize, speed: u32) -> Result<(), Refusal>
    ensures { Judges (λ l. root_verdict l speed) old.now new_len (told result) }
{
    if wrong_length(old, new_len) || speed > 3 {
        return Err(Refusal::BadArgument);
    }
    if !sound(old) {
        return Err(Refusal::StoreDamaged);
    }
    if byte_at(old, 0, USED) != 0 {
        return Err(Refusal::AlreadyAttached);
    }
    match speed {
        3 => Err(Refusal::RootSpeed),
        _ => Ok(()),
    }
}

// Of a call that names a hub and nothing else.
#[tactic(auto, unfolding(usb_model::specs::Entry::hub_verdict))]
pub fn hub_verdict(old: &[u8], new_len: usize, hub: u32) -> Result<(), Refusal>
    ensures { Judges (λ l. hub_verdict l hub false) old.now new_len (told result) }
{
    if wrong_length(old, new_len) {
        return Err(Refusal::BadArgument);
    }
    if !sound(old) {
        return Err(Refusal::StoreDamaged);
    }
    if no_hub(old, hub) {
        return Err(Refusal::BadArgument);
    }
    Ok(())
}

#[tactic(auto, unfolding(usb_model::specs::Entry::hub_verdict))]
pub fn port_verdict(old: &[u8], new_len: usize, hub: u32, port: u32) -> Result<(), Refusal>
    ensures { Judges (λ l. hub_verdict l hub (no_port port)) old.now new_len (told result) }
{
    hub_verdict(old, new_len, hub)?;
    if port > 9 {
        return Err(Refusal::BadArgument);
    }
    Ok(())
}

#[tactic(auto, unfolding(usb_model::specs::Entry::hub_verdict))]
pub fn child_verdict(old: &[u8], new_len: usize, hub: u32, child: u32) -> Result<(), Refusal>
    ensures { Judges (λ l. hub_verdict l hub (is_unused l child)) old.now new_len (told result) }
{
    hub_verdict(old, new_len, hub)?;
    if is_unused(old, child) {
        return Err(Refusal::BadArgument);
    }
    Ok(())
}
