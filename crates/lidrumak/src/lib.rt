// The calls: numbers and byte slices, each by the name under which C calls it. What the seven with stores share is `enter`.
#![tactic(auto)]

mod call;

ghost use Rattle.std.specs.Prelude.{◌≡◌};
ghost use Rattle.usb_model.specs.Entry.{root_attach, scan, port_check, child_reset, child_check, retried_reset, connection_change, configuration_walk};
ghost use Rattle.usb_entry.specs.Replies.{lent, left, walk_left};

use crate::call::{Call, enter};
use usb_entry::reply::Reply;
use usb_types::types::Refusal;
use usb_walk::{RECORD_LEN, walk};

// UsbAttachRootHub.
#[tactic(auto, unfolding(usb_model::specs::Entry::root_attach))]
pub fn lidrumak_root_attach(
    old: &[u8],
    new: &mut [u8],
    outcomes: &[u8],
    log: &mut [u8],
    speed: u32,
) -> Reply
    ensures { left result new.new log.new
        ≡ root_attach speed (lent old.now new.old outcomes.now log.old) }
{
    enter(Call::RootAttach(speed), old, new, outcomes, log)
}

// HubCheckForChange.
#[tactic(auto, unfolding(usb_model::specs::Entry::scan))]
pub fn lidrumak_scan(old: &[u8], new: &mut [u8], outcomes: &[u8], log: &mut [u8], hub: u32) -> Reply
    ensures { left result new.new log.new
        ≡ scan hub (lent old.now new.old outcomes.now log.old) }
{
    enter(Call::Scan(hub), old, new, outcomes, log)
}

// HubCheckConnection.
#[tactic(auto, unfolding(usb_model::specs::Entry::port_check))]
pub fn lidrumak_port_check(
    old: &[u8],
    new: &mut [u8],
    outcomes: &[u8],
    log: &mut [u8],
    hub: u32,
    port: u32,
) -> Reply
    ensures { left result new.new log.new
        ≡ port_check hub port (lent old.now new.old outcomes.now log.old) }
{
    enter(Call::PortCheck(hub, port), old, new, outcomes, log)
}

// HubChildReset.
#[tactic(auto, unfolding(usb_model::specs::Entry::child_reset))]
pub fn lidrumak_child_reset(
    old: &[u8],
    new: &mut [u8],
    outcomes: &[u8],
    log: &mut [u8],
    hub: u32,
    child: u32,
) -> Reply
    ensures { left result new.new log.new
        ≡ child_reset hub child (lent old.now new.old outcomes.now log.old) }
{
    enter(Call::ChildReset(hub, child), old, new, outcomes, log)
}

// HubCheckConnectionDevice.
#[tactic(auto, unfolding(usb_model::specs::Entry::child_check))]
pub fn lidrumak_child_check(
    old: &[u8],
    new: &mut [u8],
    outcomes: &[u8],
    log: &mut [u8],
    hub: u32,
    child: u32,
) -> Reply
    ensures { left result new.new log.new
        ≡ child_check hub child (lent old.now new.old outcomes.now log.old) }
{
    enter(Call::ChildCheck(hub, child), old, new, outcomes, log)
}

// HubPortReset.
#[tactic(auto, unfolding(usb_model::specs::Entry::retried_reset))]
pub fn lidrumak_retried_reset(
    old: &[u8],
    new: &mut [u8],
    outcomes: &[u8],
    log: &mut [u8],
    hub: u32,
    port: u32,
) -> Reply
    ensures { left result new.new log.new
        ≡ retried_reset hub port (lent old.now new.old outcomes.now log.old) }
{
    enter(Call::RetriedReset(hub, port), old, new, outcomes, log)
}

// HubPortConnectionChanged.
#[tactic(auto, unfolding(usb_model::specs::Entry::connection_change))]
pub fn lidrumak_connection_change(
    old: &[u8],
    new: &mut [u8],
    outcomes: &[u8],
    log: &mut [u8],
    hub: u32,
    port: u32,
) -> Reply
    ensures { left result new.new log.new
        ≡ connection_change hub port (lent old.now new.old outcomes.now log.old) }
{
    enter(Call::ConnectionChange(hub, port), old, new, outcomes, log)
}

// "Over 65,535 descriptor bytes, or a record of another length, is -2".
const MAX_DESCRIPTORS: usize = 65535;

pub fn lidrumak_configuration_walk(descriptors: &[u8], record: &mut [u8]) -> i32
    ensures { walk_left result «record».new ≡ configuration_walk descriptors.now «record».old }
{
    if descriptors.len() > MAX_DESCRIPTORS || record.len() != RECORD_LEN {
        return i32::from(Refusal::BadArgument);
    }
    // a match: the error is an ErrorCode, where `answer_number` takes a Failure
    match walk(descriptors, record) {
        Ok(()) => 0,
        Err(error) => i32::from(error),
    }
}
