// device/hub.rs: hub attach, port check and connection change, which call each other and attach.
ghost use Rattle.usb_model.specs.Programs.{ignore, when};
ghost use Rattle.usb_model.specs.Hub as Model;
ghost use Rattle.usb_driver.specs.Bus.{OnBus, Attaches};

use crate::usbd::usb_attach_device;
use usb_check::{end_check, start_check};
use usb_child::new_child;
use usb_hub::ports::HubPort;
use usb_hub::requests::ignore;
use usb_hub_attach::ready_hub;
use usb_store::MAX_CHILDREN;
use usb_transfer::bus::UsbBus;
use usb_types::types::Failure;

#[cycle(attach)]
pub fn hub_attach(bus: &mut UsbBus, hub: usize) -> Result<(), Failure>
    requires { OnBus hub bus.old }
    ensures { Attaches (λ attach. Model.hub_attach attach hub) bus.old bus.new result }
{
    ready_hub(bus, hub)?;
    let count = usize::from(bus.byte_at(hub, MAX_CHILDREN));
    for port in 0..count {
        ignore(hub_check_connection(bus, HubPort { hub, port }))?;
    }
    Ok(())
}

#[cycle(attach)]
pub fn hub_check_connection(bus: &mut UsbBus, at: HubPort) -> Result<(), Failure>
    requires { OnBus at.hub bus.old }
    ensures { Attaches (λ attach. Model.hub_check_connection attach at.hub at.port) bus.old bus.new result }
{
    let due = start_check(bus, at)?;
    change_if(bus, at, due.dropped)?;
    change_if(bus, at, due.changed)?;
    end_check(bus, at, due.status)
}

// A connection change that is due; of its result only a stop counts. The test stands here, as in the definition's `when`, for both calls.
#[cycle(attach)]
fn change_if(bus: &mut UsbBus, at: HubPort, due: bool) -> Result<(), Failure>
    requires { OnBus at.hub bus.old }
    ensures { Attaches (λ attach. when due (ignore (Model.hub_port_connection_changed attach at.hub at.port))) bus.old bus.new result }
{
    if due {
        return ignore(hub_port_connection_changed(bus, at));
    }
    Ok(())
}

#[cycle(attach)]
pub fn hub_port_connection_changed(bus: &mut UsbBus, at: HubPort) -> Result<(), Failure>
    requires { OnBus at.hub bus.old }
    ensures { Attaches (λ attach. Model.hub_port_connection_changed attach at.hub at.port) bus.old bus.new result }
{
    let place = new_child(bus, at)?;
    usb_attach_device(bus, place)
}
