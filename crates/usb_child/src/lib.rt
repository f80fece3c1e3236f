// device/hub.rs, HubPortConnectionChanged up to the attach of the new device.
#![tactic(auto)]

ghost use Rattle.std.specs.Prelude.{◌≡◌, ◌<◌, length, IfOk, Ok};
ghost use Rattle.usb_store.specs.Layout.{place_count, store_length, port_status_field, child_field};
ghost use Rattle.usb_store.specs.Access.{byte_at, number_at};
ghost use Rattle.usb_transfer.specs.Runs.{Ready, Does};
ghost use Rattle.usb_child.specs.Parts.{start_change, no_new_device, reset_changed, set_port, place_child, new_child};

use usb_enumerate::usb_allocate_device;
use usb_hub::ports::{
    HubPort, PORT_CONNECTION, PORT_ENABLE, has, port_child, port_status, speed_of,
};
use usb_hub::requests::{C_PORT_CONNECTION, hub_change_port_feature, hub_port_get_status};
use usb_port::hub_port_reset2;
use usb_store::{CHILDREN, PARENT, PORT_NUMBER, SPEED};
use usb_transfer::bus::UsbBus;
use usb_types::types::{ErrorCode, Failure};

// The change is read, cleared, and the status read again.
#[tactic(auto, unfolding(crate::specs::Parts::start_change), using(usb_transfer::proofs::Steps::steps))]
fn start_change(bus: &mut UsbBus, at: HubPort) -> Result<(), Failure>
    requires { Ready bus.old }
    ensures { Does (start_change at.hub at.port) bus.old bus.new result }
{
    bus.dwc_update_host_frame_interval()?;
    hub_port_get_status(bus, at)?;
    hub_change_port_feature(bus, at.hub, C_PORT_CONNECTION, at.port, false)?;
    hub_port_get_status(bus, at)
}

// No device is there, or the port has a child.
#[tactic(auto, unfolding(crate::specs::Parts::no_new_device, usb_model::specs::Features::bit))]
fn no_new_device(bus: &UsbBus, at: HubPort) -> bool
    requires { length bus.now.store.now ≡ store_length }
    ensures { result ≡ no_new_device (number_at bus.now.store.now at.hub (port_status_field at.port) 4)
        (byte_at bus.now.store.now at.hub (child_field at.port)) }
{
    let status = port_status(bus.stored(), at);
    let connected = has(status, PORT_CONNECTION);
    let enabled = has(status, PORT_ENABLE);
    let taken = port_child(bus.stored(), at).is_some();
    !connected && !enabled || taken
}

// A port at which a device came is reset.
#[tactic(auto, unfolding(crate::specs::Parts::reset_changed, usb_model::specs::Hub::port_status), using(usb_transfer::proofs::Steps::steps))]
fn reset_changed(bus: &mut UsbBus, at: HubPort) -> Result<(), Failure>
    requires { Ready bus.old }
    ensures { Does (reset_changed at.hub at.port) bus.old bus.new result }
{
    start_change(bus, at)?;
    if no_new_device(bus, at) {
        return Err(Failure::Error(ErrorCode::Incompatible));
    }
    bus.micro_delay(300000)?;
    hub_port_reset2(bus, at)
}

// The speed, the hub and the port of a new device.
fn set_port(bus: &mut UsbBus, at: HubPort, place: usize)
    requires { Ready bus.old × (place < place_count) }
    ensures { Does (set_port at.hub at.port place) bus.old bus.new (Ok tt) }
{
    let speed = u8::from(speed_of(port_status(bus.stored(), at)));
    bus.set_byte(place, SPEED, speed);
    bus.set_byte(place, PARENT, (at.hub + 1) as u8);
    bus.set_byte(place, PORT_NUMBER, at.port as u8);
}

// The new device is the port's child; its hub and port are set once the status is read.
#[tactic(auto, unfolding(crate::specs::Parts::place_child), using(usb_transfer::proofs::Steps::steps))]
fn place_child(bus: &mut UsbBus, at: HubPort, place: usize) -> Result<(), Failure>
    requires { Ready bus.old × (place < place_count) }
    ensures { Does (place_child at.hub at.port place) bus.old bus.new result }
{
    bus.set_byte(at.hub, CHILDREN + at.port, (place + 1) as u8);
    hub_port_get_status(bus, at)?;
    set_port(bus, at, place);
    Ok(())
}

// The place of a device that came.
#[tactic(auto, unfolding(crate::specs::Parts::new_child), using(usb_transfer::proofs::Steps::steps))]
pub fn new_child(bus: &mut UsbBus, at: HubPort) -> Result<usize, Failure>
    requires { Ready bus.old }
    ensures gives { Does (new_child at.hub at.port) bus.old bus.new result }
    ensures inside { IfOk result (λ place. place < place_count) }
{
    reset_changed(bus, at)?;
    let place = usb_allocate_device(bus)?;
    place_child(bus, at, place)?;
    Ok(place)
}
