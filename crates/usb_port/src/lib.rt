// device/hub.rs: HubPortReset2.
#![tactic(auto)]

ghost use Rattle.usb_model.specs.Hub as Model;
ghost use Rattle.usb_transfer.specs.Runs.{Ready, Does};
ghost use Rattle.usb_port.specs.Parts.{delayed_status, reset_port};

use usb_hub::ports::{HubPort, has, port_status};
use usb_hub::requests::{
    C_PORT_RESET, PORT_RESET, hub_change_port_feature, hub_port_get_status, ignore,
};
use usb_transfer::bus::UsbBus;
use usb_types::types::{ErrorCode, Failure};

// A wait, and a read of the port's status.
pub fn delayed_status(bus: &mut UsbBus, at: HubPort, microseconds: u32) -> Result<(), Failure>
    requires { Ready bus.old }
    ensures { Does (delayed_status at.hub at.port microseconds) bus.old bus.new result }
{
    bus.micro_delay(microseconds)?;
    hub_port_get_status(bus, at)
}

// "at most 21 status reads".
const RESET_READS: usize = 21;

// Reads until one shows the reset change.
fn await_reset(bus: &mut UsbBus, at: HubPort) -> Result<bool, Failure>
    requires { Ready bus.old }
    ensures { Does (Model.await_reset 21 at.hub at.port) bus.old bus.new result }
{
    for _read in 0..RESET_READS {
        delayed_status(bus, at, 50000)?;
        if has(port_status(bus.stored(), at), usb_hub::ports::C_PORT_RESET) {
            return Ok(true);
        }
    }
    Ok(false)
}

pub fn hub_port_reset2(bus: &mut UsbBus, at: HubPort) -> Result<(), Failure>
    requires { Ready bus.old }
    ensures { Does (Model.hub_port_reset2 at.hub at.port) bus.old bus.new result }
{
    reset_port(bus, at)?;
    let seen = await_reset(bus, at)?;
    hub_change_port_feature(bus, at.hub, C_PORT_RESET, at.port, false)?;
    if !seen {
        return Err(Failure::Error(ErrorCode::Timeout));
    }
    bus.micro_delay(10000)
}

// The change is cleared, whatever comes of it, and the port is reset.
fn reset_port(bus: &mut UsbBus, at: HubPort) -> Result<(), Failure>
    requires { Ready bus.old }
    ensures { Does (reset_port at.hub at.port) bus.old bus.new result }
{
    ignore(hub_change_port_feature(bus, at.hub, C_PORT_RESET, at.port, false))?;
    hub_change_port_feature(bus, at.hub, PORT_RESET, at.port, true)
}
