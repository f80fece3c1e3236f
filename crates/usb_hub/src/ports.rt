// The stored status of a port: wPortStatus, and above it wPortChange (USB 2.0 11.24.2.7).
ghost use Rattle.std.specs.Prelude.{◌≡◌, ◌/◌, ◌%◌, ◌<◌, eqb, length, get_or};
ghost use Rattle.usb_store.specs.Layout.{place_count, store_length, port_status_field, child_field, ports_per_hub};
ghost use Rattle.usb_store.specs.Access.{byte_at, number_at};
ghost use Rattle.usb_device.specs.Speeds.{speed_number};
ghost use Rattle.usb_model.specs.Hub.{speed_of};
ghost use Rattle.usb_hub.specs.Parts.{place_of};

use usb_device::device::UsbSpeed;
use usb_device::hub::{HubDevice, load_hub};

// Bits of wPortStatus, USB 2.0 table 11-21. Numbers: several are set at once, so they are not the cases of an enum.
pub const PORT_CONNECTION: u32 = 0x1;

pub const PORT_ENABLE: u32 = 0x2;

pub const PORT_SUSPEND: u32 = 0x4;

pub const PORT_LOW_SPEED: u32 = 0x200;

pub const PORT_HIGH_SPEED: u32 = 0x400;

// Bits of wPortChange, table 11-22, 16 above those of wPortStatus.
pub const C_PORT_CONNECTION: u32 = 0x10000;

pub const C_PORT_ENABLE: u32 = 0x20000;

pub const C_PORT_OVER_CURRENT: u32 = 0x80000;

pub const C_PORT_RESET: u32 = 0x100000;

// The bit of that weight is set.
pub fn has(status: u32, weight: u32) -> bool
    requires { 0 < weight }
    ensures { result ≡ eqb (status / weight % 2) 1 }
{
    status / weight % 2 == 1
}

// Low speed is tested first.
pub fn speed_of(status: u32) -> UsbSpeed
    ensures { speed_number result ≡ speed_of status }
{
    if has(status, PORT_LOW_SPEED) {
        return UsbSpeed::Low;
    }
    if has(status, PORT_HIGH_SPEED) {
        return UsbSpeed::High;
    }
    UsbSpeed::Full
}

pub fn status_of(hub: HubDevice, port: usize) -> u32
    requires { port < ports_per_hub }
    ensures { result ≡ get_or hub.port_status port 0 }
{
    let statuses = hub.port_status;
    statuses[port]
}

// The place of a port's child.
pub fn child_of(hub: HubDevice, port: usize) -> Option<usize>
    requires { port < ports_per_hub }
    ensures { result ≡ place_of (get_or hub.children port 0) }
{
    let children = hub.children;
    match children[port] {
        0 => None,
        child => Some(usize::from(child) - 1),
    }
}

// A port of a hub: the hub's place, and the port counted from 0.
#[derive(Clone, Copy)]
pub struct HubPort {
    pub hub: usize,
    pub port: usize,
    ghost of_hub: { hub < place_count },
    ghost in_range: { port < ports_per_hub },
}

// The stored status of a hub's port.
pub fn port_status(store: &[u8], at: HubPort) -> u32
    requires { length store.now ≡ store_length }
    ensures { result ≡ number_at store.now at.hub (port_status_field at.port) 4 }
{
    status_of(load_hub(store, at.hub), at.port)
}

// The place of the child at a hub's port.
pub fn port_child(store: &[u8], at: HubPort) -> Option<usize>
    requires { length store.now ≡ store_length }
    ensures { result ≡ place_of (byte_at store.now at.hub (child_field at.port)) }
{
    child_of(load_hub(store, at.hub), at.port)
}
