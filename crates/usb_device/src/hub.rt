// hcd/hub.rs: a hub's ten ports, by value.
ghost use Rattle.std.specs.Prelude.{◌≡◌, ◌<◌, length};
ghost use Rattle.usb_store.specs.Layout.{place_count, store_length};
ghost use Rattle.usb_device.specs.Ports.{hub_at, with_hub};

use std::array;
use usb_store::{
    CHILDREN, MAX_CHILDREN, PORT_STATUS, PORTS, byte_at, set_byte, set_bytes, set_u32, u32_at,
};

// What the ports' functions read of a hub: bytes 56 to 106 of its place. Document 01 names the form, arrays of statuses and children.
#[derive(Clone, Copy)]
pub struct HubDevice {
    pub port_status: [u32; PORTS],
    pub children: [u8; PORTS],
    pub max_children: u8,
}

pub fn load_hub(store: &[u8], place: usize) -> HubDevice
    requires { (length store.now ≡ store_length) × (place < place_count) }
    ensures { result ≡ hub_at store.now place }
{
    HubDevice {
        port_status: array::from_fn(|port| u32_at(store, place, PORT_STATUS + 4 * port)),
        children: array::from_fn(|port| byte_at(store, place, CHILDREN + port)),
        max_children: byte_at(store, place, MAX_CHILDREN),
    }
}

#[tactic(auto, unfolding(crate::specs::Ports::with_hub), using(crate::proofs::Turns::statuses_turn, crate::proofs::Turns::statuses_end))]
pub fn store_hub(store: &mut [u8], place: usize, hub: HubDevice)
    requires { (length store.old ≡ store_length) × (place < place_count) }
    ensures { store.new ≡ with_hub store.old place hub }
{
    for (port, status) in hub.port_status.iter().enumerate() {
        set_u32(store, place, PORT_STATUS + 4 * port, *status);
    }
    set_bytes(store, place, CHILDREN, &hub.children);
    set_byte(store, place, MAX_CHILDREN, hub.max_children);
}
