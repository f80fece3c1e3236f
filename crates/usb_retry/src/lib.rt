// device/hub.rs, HubPortReset.
#![tactic(auto)]

ghost use Rattle.std.specs.Prelude.{◌≡◌};
ghost use Rattle.usb_model.specs.Hub as Model;
ghost use Rattle.usb_transfer.specs.Runs.{Ready, Does};
ghost use Rattle.usb_retry.specs.Parts.{reset_or_enabled, is_lost, try_reset};

use usb_hub::ports::{HubPort, has, port_status};
use usb_hub::requests::{C_PORT_RESET, PORT_RESET, hub_change_port_feature, ignore};
use usb_port::delayed_status;
use usb_transfer::bus::UsbBus;
use usb_types::types::{ErrorCode, Failure};

const TRIES: usize = 3;

// The status reads of one try.
const READS: usize = 10;

#[tactic(auto, unfolding(crate::specs::Parts::reset_or_enabled, usb_model::specs::Features::bit))]
fn reset_or_enabled(status: u32) -> bool
    ensures { result ≡ reset_or_enabled status }
{
    has(status, usb_hub::ports::C_PORT_RESET) || has(status, usb_hub::ports::PORT_ENABLE)
}

// Reads until one shows the reset change or an enabled port; one seen in the tenth counts as not seen. Apart from usb_port's
// await_reset: they differ in count, wait, test and in what the last read counts, and a function that takes all four is no plainer.
#[tactic(auto, using(crate::proofs::Polls::turns))]
fn await_enabled(bus: &mut UsbBus, at: HubPort) -> Result<bool, Failure>
    requires { Ready bus.old }
    ensures { Does (Model.await_enabled 10 at.hub at.port) bus.old bus.new result }
{
    for read in 0..READS {
        delayed_status(bus, at, 20000)?;
        if reset_or_enabled(port_status(bus.stored(), at)) {
            return Ok(read + 1 != READS);
        }
    }
    Ok(false)
}

// The device is gone, or another came.
#[tactic(auto, unfolding(crate::specs::Parts::is_lost, usb_model::specs::Features::bit))]
fn lost(status: u32) -> bool
    ensures { result ≡ is_lost status }
{
    has(status, usb_hub::ports::C_PORT_CONNECTION) || !has(status, usb_hub::ports::PORT_CONNECTION)
}

// One try of HubPortReset: was the port seen enabled?
#[tactic(auto, unfolding(crate::specs::Parts::try_reset, usb_model::specs::Hub::port_status), using(usb_transfer::proofs::Steps::steps))]
fn try_reset(bus: &mut UsbBus, at: HubPort) -> Result<bool, Failure>
    requires { Ready bus.old }
    ensures { Does (try_reset at.hub at.port) bus.old bus.new result }
{
    hub_change_port_feature(bus, at.hub, PORT_RESET, at.port, true)?;
    let seen = await_enabled(bus, at)?;
    let status = port_status(bus.stored(), at);
    if seen && lost(status) {
        return Err(Failure::Error(ErrorCode::Device));
    }
    Ok(seen && has(status, usb_hub::ports::PORT_ENABLE))
}

#[tactic(auto, using(crate::proofs::Tries::turns))]
fn reset_tries(bus: &mut UsbBus, at: HubPort) -> Result<(), Failure>
    requires { Ready bus.old }
    ensures { Does (Model.reset_tries 3 at.hub at.port) bus.old bus.new result }
{
    for _tried in 0..TRIES {
        if try_reset(bus, at)? {
            return Ok(());
        }
    }
    Ok(())
}

#[tactic(auto, unfolding(usb_model::specs::Hub::hub_port_reset), using(usb_hub::proofs::Parts::steps))]
pub fn hub_port_reset(bus: &mut UsbBus, at: HubPort) -> Result<(), Failure>
    requires { Ready bus.old }
    ensures { Does (Model.hub_port_reset at.hub at.port) bus.old bus.new result }
{
    reset_tries(bus, at)?;
    ignore(hub_change_port_feature(bus, at.hub, PORT_RESET, at.port, false))?;
    ignore(hub_change_port_feature(bus, at.hub, C_PORT_RESET, at.port, false))
}
