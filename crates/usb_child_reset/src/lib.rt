// device/hub.rs: the port at which a child stands, and HubChildReset. Both functions take the hub and the child, the two places that the
// call names: there is a port, and so a HubPort, only where the child stands at the hub.
#![tactic(auto)]

ghost use Rattle.std.specs.Prelude.{◌≡◌, ◌≤◌, ◌<◌, length};
ghost use Rattle.usb_store.specs.Layout.{place_count, store_length, max_children_field, ports_per_hub};
ghost use Rattle.usb_store.specs.Access.{byte_at};
ghost use Rattle.usb_model.specs.Hub as Model;
ghost use Rattle.usb_transfer.specs.Runs.{Ready, Does};
ghost use Rattle.usb_child_reset.specs.Finds.{Finds};

use usb_hub::ports::HubPort;
use usb_port::hub_port_reset2;
use usb_store::{CHILDREN, MAX_CHILDREN, PARENT, PORT_NUMBER, byte_at};
use usb_transfer::bus::UsbBus;
use usb_types::types::{ErrorCode, Failure};

// The port of a child, if it stands at one of this hub. The port counted from 0 is tested against MaxChildren.
pub fn port_of_child(store: &[u8], hub: usize, child: usize) -> Option<usize>
    requires { (length store.now ≡ store_length) × (hub < place_count) × (child < place_count) × (byte_at store.now hub max_children_field ≤ ports_per_hub) }
    ensures { Finds hub child store.now result }
{
    let port = usize::from(byte_at(store, child, PORT_NUMBER));
    let stands = usize::from(byte_at(store, child, PARENT)) == hub + 1
        && port < usize::from(byte_at(store, hub, MAX_CHILDREN))
        && usize::from(byte_at(store, hub, CHILDREN + port)) == child + 1;
    stands.then_some(port)
}

pub fn hub_child_reset(bus: &mut UsbBus, hub: usize, child: usize) -> Result<(), Failure>
    requires { Ready bus.old × (hub < place_count) × (child < place_count) × (byte_at bus.old.store.now hub max_children_field ≤ ports_per_hub) }
    ensures { Does (Model.hub_child_reset hub child) bus.old bus.new result }
{
    let port = port_of_child(bus.stored(), hub, child).ok_or(ErrorCode::Argument)?;
    hub_port_reset2(bus, HubPort { hub, port })
}
