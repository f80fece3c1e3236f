// device/hub.rs, HubAttach up to its ports.
#![tactic(auto)]

ghost use Rattle.std.specs.Prelude.{◌≡◌, ◌<◌, length};
ghost use Rattle.usb_store.specs.Layout.{place_count, store_length};
ghost use Rattle.usb_transfer.specs.Runs.{Ready, Does};
ghost use Rattle.usb_hub_attach.specs.Parts.{hub_endpoint, hub_described, hub_powered, hub_ready, ports_of};

use usb_hub::requests::{HubData, hub_get_status, hub_power_on};
use usb_hub_descriptor::hub_read_descriptor;
use usb_store::{ENDPOINT_ADDRESS, ENDPOINT_ATTRIBUTES, ENDPOINT_COUNT, MAX_CHILDREN, PORT_COUNT};
use usb_transfer::bus::UsbBus;
use usb_types::types::{ErrorCode, Failure};

// One endpoint, to the host, of type interrupt (USB 2.0 11.23.1).
#[tactic(auto, unfolding(crate::specs::Parts::hub_endpoint))]
fn hub_endpoint(bus: &UsbBus, hub: usize) -> bool
    requires { (length bus.now.store.now ≡ store_length) × (hub < place_count) }
    ensures { result ≡ hub_endpoint bus.now.store.now hub }
{
    bus.byte_at(hub, ENDPOINT_COUNT) == 1
        && bus.byte_at(hub, ENDPOINT_ADDRESS) >= 128
        && bus.byte_at(hub, ENDPOINT_ATTRIBUTES) % 4 == 3
}

// A hub has at most ten ports.
fn ports_of(count: u8) -> u8
    ensures { result ≡ ports_of count }
{
    count.min(10)
}

// HubDevice::new, the hub descriptor, and as many children as it has ports.
#[tactic(auto, unfolding(crate::specs::Parts::hub_described), using(usb_transfer::proofs::Steps::steps))]
fn describe_hub(bus: &mut UsbBus, hub: usize) -> Result<(), Failure>
    requires { Ready bus.old × (hub < place_count) }
    ensures { Does (hub_described hub) bus.old bus.new result }
{
    bus.set_byte(hub, usb_store::HUB, HubData::WithoutDescriptor as u8);
    bus.set_byte(hub, MAX_CHILDREN, 1);
    hub_read_descriptor(bus, hub)?;
    let count = bus.byte_at(hub, PORT_COUNT);
    bus.set_byte(hub, MAX_CHILDREN, ports_of(count));
    Ok(())
}

// Its status, power, its status again.
#[tactic(auto, unfolding(crate::specs::Parts::hub_powered), using(usb_transfer::proofs::Steps::steps))]
fn power_hub(bus: &mut UsbBus, hub: usize) -> Result<(), Failure>
    requires { Ready bus.old × (hub < place_count) }
    ensures { Does (hub_powered hub) bus.old bus.new result }
{
    hub_get_status(bus, hub)?;
    hub_power_on(bus, hub)?;
    hub_get_status(bus, hub)
}

#[tactic(auto, using(crate::proofs::Hubs::ways))]
pub fn ready_hub(bus: &mut UsbBus, hub: usize) -> Result<(), Failure>
    requires { Ready bus.old × (hub < place_count) }
    ensures { Does (hub_ready hub) bus.old bus.new result }
{
    if !hub_endpoint(bus, hub) {
        return Err(Failure::Error(ErrorCode::Incompatible));
    }
    describe_hub(bus, hub)?;
    power_hub(bus, hub)
}
