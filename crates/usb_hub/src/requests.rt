// The requests to a hub and to its ports.
ghost use Rattle.std.specs.Prelude.{◌≡◌, ◌≤◌, ◌<◌};
ghost use Rattle.usb_store.specs.Layout.{place_count};
ghost use Rattle.usb_model.specs.Hub as Model;
ghost use Rattle.usb_transfer.specs.Runs.{Ready, Does};
ghost use Rattle.usb_hub.specs.Parts.{ignored, feature_request, power_delay, power_ports};

use crate::ports::HubPort;
use usb_message::{control, read};
use usb_model::Buffer;
use usb_store::{HUB_STATUS, MAX_CHILDREN, PORT_STATUS, POWER_GOOD_DELAY};
use usb_transfer::bus::UsbBus;
use usb_types::request::{
    CLEAR_FEATURE, GET_STATUS, HUB, PORT, SET_FEATURE, UsbDeviceRequest, device_request,
};
use usb_types::types::Failure;

// Feature selectors, USB 2.0 table 11-17. Numbers: `hub_change_port_feature` takes each u16, and an enum would take fewer.
pub const PORT_SUSPEND: u16 = 2;

pub const PORT_OVER_CURRENT: u16 = 3;

pub const PORT_RESET: u16 = 4;

pub const PORT_POWER: u16 = 8;

pub const C_PORT_CONNECTION: u16 = 16;

pub const C_PORT_ENABLE: u16 = 17;

pub const C_PORT_RESET: u16 = 20;

// The byte of a place that is a hub, by whether its descriptor was read; 0 is no hub. Only named cases are written and compared, by `as u8`.
#[derive(Clone, Copy)]
pub enum HubData {
    WithoutDescriptor = 1,
    WithDescriptor = 2,
}

// A call whose result the Rust does not look at: only a stop goes on upward.
pub fn ignore(answer: Result<(), Failure>) -> Result<(), Failure>
    ensures { result ≡ ignored answer }
{
    if let Err(Failure::Error(_)) = answer {
        return Ok(());
    }
    answer
}

pub fn hub_get_status(bus: &mut UsbBus, hub: usize) -> Result<(), Failure>
    requires { Ready bus.old × (hub < place_count) }
    ensures { Does (Model.hub_get_status hub) bus.old bus.new result }
{
    let request = device_request(HUB, GET_STATUS, 0, 0, 4);
    let buffer = Buffer {
        field: HUB_STATUS,
        room: 4,
    };
    read(bus, hub, request, 4, buffer)?;
    Ok(())
}

fn feature_request(feature: u16, port: usize, set: bool) -> UsbDeviceRequest
    requires { port < 256 }
    ensures { result ≡ feature_request feature port set }
{
    let request = if set { SET_FEATURE } else { CLEAR_FEATURE };
    let index = (port + 1) as u16;
    device_request(PORT, request, feature, index, 0)
}

// Takes hub and port apart and any port below 256, no HubPort: `hub_power_on` powers as many ports as the MaxChildren byte says.
pub fn hub_change_port_feature(
    bus: &mut UsbBus,
    hub: usize,
    feature: u16,
    port: usize,
    set: bool,
) -> Result<(), Failure>
    requires { Ready bus.old × (hub < place_count) × (port < 256) }
    ensures { Does (Model.hub_change_port_feature hub feature port set) bus.old bus.new result }
{
    let request = feature_request(feature, port, set);
    control(bus, hub, request, Buffer::NOWHERE)?;
    Ok(())
}

pub fn hub_port_get_status(bus: &mut UsbBus, at: HubPort) -> Result<(), Failure>
    requires { Ready bus.old }
    ensures { Does (Model.hub_port_get_status at.hub at.port) bus.old bus.new result }
{
    let request = device_request(PORT, GET_STATUS, 0, (at.port + 1) as u16, 4);
    let buffer = Buffer {
        field: PORT_STATUS + 4 * at.port,
        room: 4,
    };
    read(bus, at.hub, request, 4, buffer)?;
    Ok(())
}

// Powers the first count ports, whatever comes of each.
fn power_ports(bus: &mut UsbBus, hub: usize, count: usize) -> Result<(), Failure>
    requires { Ready bus.old × (hub < place_count) × (count ≤ 256) }
    ensures { Does (power_ports hub count) bus.old bus.new result }
{
    for port in 0..count {
        ignore(hub_change_port_feature(bus, hub, PORT_POWER, port, true))?;
    }
    Ok(())
}

// bPwrOn2PwrGood counts 2 ms; where it is 0, 100 ms are waited.
fn power_delay(count: u8) -> u32
    ensures { result ≡ power_delay count }
{
    match count {
        0 => 100000,
        _ => u32::from(count) * 2000,
    }
}

pub fn hub_power_on(bus: &mut UsbBus, hub: usize) -> Result<(), Failure>
    requires { Ready bus.old × (hub < place_count) }
    ensures { Does (Model.hub_power_on hub) bus.old bus.new result }
{
    if bus.byte_at(hub, usb_store::HUB) != HubData::WithDescriptor as u8 {
        return Ok(());
    }
    let count = usize::from(bus.byte_at(hub, MAX_CHILDREN));
    let delay = power_delay(bus.byte_at(hub, POWER_GOOD_DELAY));
    power_ports(bus, hub, count)?;
    bus.micro_delay(delay)
}
