// The calls of lidrumak as a kernel in C or Rust links them: a slice is a pointer and a length. C calls each by a name of its own.
#![tactic(auto)]

ghost use Rattle.std.specs.Prelude.{◌≡◌};
ghost use Rattle.usb_model.specs.Entry.{root_attach, scan, port_check, child_reset, child_check, retried_reset, connection_change, configuration_walk};
ghost use Rattle.usb_entry.specs.Replies.{lent, left, walk_left};

use usb_entry::reply::Reply;

// UsbAttachRootHub.
#[unsafe(no_mangle)]
pub extern "C" fn lidrumak_root_attach(
    old: &[u8],
    new: &mut [u8],
    outcomes: &[u8],
    log: &mut [u8],
    speed: u32,
) -> Reply
    ensures { left result new.new log.new
        ≡ root_attach speed (lent old.now new.old outcomes.now log.old) }
{
    lidrumak::lidrumak_root_attach(old, new, outcomes, log, speed)
}

// HubCheckForChange.
#[unsafe(no_mangle)]
pub extern "C" fn lidrumak_scan(
    old: &[u8],
    new: &mut [u8],
    outcomes: &[u8],
    log: &mut [u8],
    hub: u32,
) -> Reply
    ensures { left result new.new log.new
        ≡ scan hub (lent old.now new.old outcomes.now log.old) }
{
    lidrumak::lidrumak_scan(old, new, outcomes, log, hub)
}

// HubCheckConnection.
#[unsafe(no_mangle)]
pub extern "C" fn lidrumak_port_check(
    old: &[u8],
    new: &mut [u8],
    outcomes: &[u8],
    log: &mut [u8],
    hub: u32,
    port: u32,
) -> Reply
    ensures { left result new.new log.new
        ≡ port_check hub port (lent old.now new.old outcomes.now log.old) }
{
    lidrumak::lidrumak_port_check(old, new, outcomes, log, hub, port)
}

// HubChildReset.
#[unsafe(no_mangle)]
pub extern "C" fn lidrumak_child_reset(
    old: &[u8],
    new: &mut [u8],
    outcomes: &[u8],
    log: &mut [u8],
    hub: u32,
    child: u32,
) -> Reply
    ensures { left result new.new log.new
        ≡ child_reset hub child (lent old.now new.old outcomes.now log.old) }
{
    lidrumak::lidrumak_child_reset(old, new, outcomes, log, hub, child)
}

// HubCheckConnectionDevice.
#[unsafe(no_mangle)]
pub extern "C" fn lidrumak_child_check(
    old: &[u8],
    new: &mut [u8],
    outcomes: &[u8],
    log: &mut [u8],
    hub: u32,
    child: u32,
) -> Reply
    ensures { left result new.new log.new
        ≡ child_check hub child (lent old.now new.old outcomes.now log.old) }
{
    lidrumak::lidrumak_child_check(old, new, outcomes, log, hub, child)
}

// HubPortReset.
#[unsafe(no_mangle)]
pub extern "C" fn lidrumak_retried_reset(
    old: &[u8],
    new: &mut [u8],
    outcomes: &[u8],
    log: &mut [u8],
    hub: u32,
    port: u32,
) -> Reply
    ensures { left result new.new log.new
        ≡ retried_reset hub port (lent old.now new.old outcomes.now log.old) }
{
    lidrumak::lidrumak_retried_reset(old, new, outcomes, log, hub, port)
}

// HubPortConnectionChanged.
#[unsafe(no_mangle)]
pub extern "C" fn lidrumak_connection_change(
    old: &[u8],
    new: &mut [u8],
    outcomes: &[u8],
    log: &mut [u8],
    hub: u32,
    port: u32,
) -> Reply
    ensures { left result new.new log.new
        ≡ connection_change hub port (lent old.now new.old outcomes.now log.old) }
{
    lidrumak::lidrumak_connection_change(old, new, outcomes, log, hub, port)
}

// The configuration walk alone.
#[unsafe(no_mangle)]
pub extern "C" fn lidrumak_configuration_walk(descriptors: &[u8], record: &mut [u8]) -> i32
    ensures { walk_left result «record».new ≡ configuration_walk descriptors.now «record».old }
{
    lidrumak::lidrumak_configuration_walk(descriptors, record)
}
