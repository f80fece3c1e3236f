// A call of the driver: its refusals, and, on a copy of the old store, the function that it names.
ghost use Rattle.std.specs.Prelude.{◌≡◌, ◌<◌};
ghost use Rattle.usb_store.specs.Layout.{place_count, ports_per_hub};
ghost use Rattle.usb_entry.specs.Replies.{told, Judges, lent, left};
ghost use Rattle.usb_transfer.specs.Runs.{Does};
ghost use Rattle.lidrumak.specs.Entries.{verdict, program, entry, CanRun};

use usb_child_reset::hub_child_reset;
use usb_driver::hub::{hub_check_connection, hub_port_connection_changed};
use usb_driver::usbd::usb_attach_root_hub;
use usb_entry::reply::{Reply, refuse, report};
use usb_entry::verdict::{child_verdict, hub_verdict, port_verdict, root_verdict};
use usb_hub::ports::HubPort;
use usb_retry::hub_port_reset;
use usb_scan::{hub_check_connection_device, hub_check_for_change};
use usb_sound::copy_store;
use usb_transfer::bus::UsbBus;
use usb_types::types::{Failure, Refusal};

// The calls with stores: a root speed, or a hub and a port or a child.
#[derive(Clone, Copy)]
pub enum Call {
    RootAttach(u32),
    Scan(u32),
    PortCheck(u32, u32),
    ChildReset(u32, u32),
    ChildCheck(u32, u32),
    RetriedReset(u32, u32),
    ConnectionChange(u32, u32),
}

// A match, as in `run`: the verdict functions take different parameters.
fn judge(call: Call, old: &[u8], new_len: usize) -> Result<(), Refusal>
    ensures { Judges (verdict call) old.now new_len (told result) }
{
    match call {
        Call::RootAttach(speed) => root_verdict(old, new_len, speed),
        Call::Scan(hub) => hub_verdict(old, new_len, hub),
        Call::PortCheck(hub, port)
        | Call::RetriedReset(hub, port)
        | Call::ConnectionChange(hub, port) => port_verdict(old, new_len, hub, port),
        Call::ChildReset(hub, child) | Call::ChildCheck(hub, child) => {
            child_verdict(old, new_len, hub, child)
        }
    }
}

// By `as`, as in `run`: std has no `From` of u32 for usize or u8.
fn hub_port(hub: u32, port: u32) -> HubPort
    requires { (hub < place_count) × (port < ports_per_hub) }
    ensures { (result.hub ≡ hub) × (result.port ≡ port) }
{
    HubPort {
        hub: hub as usize,
        port: port as usize,
    }
}

// A match, and not a closure that the caller passes: of each closure it would have to be proved that it keeps the slices which the bus lends.
fn run(bus: &mut UsbBus, call: Call) -> Result<(), Failure>
    requires { CanRun call bus.old }
    ensures does { Does (program call) bus.old bus.new result }
    ensures store { bus.new.store.ghost_name ≡ bus.old.store.ghost_name }
    ensures log { bus.new.log.ghost_name ≡ bus.old.log.ghost_name }
{
    match call {
        Call::RootAttach(speed) => usb_attach_root_hub(bus, speed as u8),
        Call::Scan(hub) => hub_check_for_change(bus, hub as usize),
        Call::PortCheck(hub, port) => hub_check_connection(bus, hub_port(hub, port)),
        Call::ChildReset(hub, child) => hub_child_reset(bus, hub as usize, child as usize),
        Call::ChildCheck(hub, child) => {
            hub_check_connection_device(bus, hub as usize, child as usize)
        }
        Call::RetriedReset(hub, port) => hub_port_reset(bus, hub_port(hub, port)),
        Call::ConnectionChange(hub, port) => hub_port_connection_changed(bus, hub_port(hub, port)),
    }
}

// The four slices are the parameters of C's calls.
pub fn enter(call: Call, old: &[u8], new: &mut [u8], outcomes: &[u8], log: &mut [u8]) -> Reply
    ensures { left result new.new log.new ≡ entry call (lent old.now new.old outcomes.now log.old) }
{
    if let Err(refusal) = judge(call, old, new.len()) {
        return refuse(refusal);
    }
    copy_store(new, old);
    let mut bus = UsbBus::new(new, outcomes, log);
    let answer = run(&mut bus, call);
    report(answer, bus.at.requests)
}
