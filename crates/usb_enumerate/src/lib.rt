// usbd.rs: the device descriptor, the address, and the place of a new device.
#![tactic(auto)]

ghost use Rattle.std.specs.Prelude.{◌≡◌, ◌<◌, length, IfOk};
ghost use Rattle.usb_store.specs.Layout.{place_count, store_length};
ghost use Rattle.usb_model.specs.Usbd as Model;
ghost use Rattle.usb_transfer.specs.Runs.{Ready, Does};
ghost use Rattle.usb_enumerate.specs.Parts.{first_size, Allocates};

use usb_device::device::{UsbDeviceStatus, UsbSpeed, first_unused, put_new_device};
use usb_message::{usb_control_message, usb_get_descriptor};
use usb_model::Buffer;
use usb_store::{MAX_PACKET_SIZE0, NUMBER, SPEED, STATUS};
use usb_transfer::bus::UsbBus;
use usb_types::request::{DEVICE, SET_ADDRESS, device_request};
use usb_types::types::{ErrorCode, Failure};

// A read of the device descriptor: how many bytes came.
#[tactic(auto, unfolding(usb_model::specs::Usbd::read_device_descriptor), using(usb_transfer::proofs::Steps::steps))]
fn read_device_descriptor(bus: &mut UsbBus, place: usize, minimum: u16) -> Result<usize, Failure>
    requires { Ready bus.old × (place < place_count) }
    ensures { Does (Model.read_device_descriptor place minimum) bus.old bus.new result }
{
    let kind = usb_types::descriptors::DEVICE_DESCRIPTOR;
    let buffer = Buffer {
        field: usb_store::DEVICE_DESCRIPTOR,
        room: 18,
    };
    let bytes = usb_get_descriptor(bus, place, DEVICE, kind, 0, 18, minimum, buffer)?;
    Ok(bytes.len())
}

// The packet size that is assumed before the descriptor is read.
#[tactic(auto, unfolding(crate::specs::Parts::first_size))]
fn first_size(speed: u8) -> u8
    ensures { result ≡ first_size speed }
{
    if speed == UsbSpeed::Low as u8 { 8 } else { 64 }
}

#[tactic(auto, using(crate::proofs::Ways::reads))]
pub fn usb_read_device_descriptor(bus: &mut UsbBus, place: usize) -> Result<(), Failure>
    requires { Ready bus.old × (place < place_count) }
    ensures { Does (Model.usb_read_device_descriptor place) bus.old bus.new result }
{
    let speed = bus.byte_at(place, SPEED);
    bus.set_byte(place, MAX_PACKET_SIZE0, first_size(speed));
    if speed != UsbSpeed::High as u8 {
        if read_device_descriptor(bus, place, 8)? != 18 {
            read_device_descriptor(bus, place, 18)?;
        }
        return Ok(());
    }
    read_device_descriptor(bus, place, 18)?;
    Ok(())
}

#[tactic(auto, unfolding(usb_model::specs::Usbd::usb_set_address), using(usb_transfer::proofs::Steps::steps))]
pub fn usb_set_address(bus: &mut UsbBus, place: usize, address: u8) -> Result<(), Failure>
    requires { Ready bus.old × (place < place_count) }
    ensures { Does (Model.usb_set_address place address) bus.old bus.new result }
{
    if bus.byte_at(place, STATUS) != UsbDeviceStatus::Default as u8 {
        return Err(Failure::Error(ErrorCode::Device));
    }
    let request = device_request(DEVICE, SET_ADDRESS, u16::from(address), 0, 0);
    usb_control_message(bus, place, 0, request, Buffer::NOWHERE)?;
    bus.micro_delay(10000)?;
    bus.set_byte(place, NUMBER, address);
    bus.set_byte(place, STATUS, UsbDeviceStatus::Addressed as u8);
    Ok(())
}

// The first place that is not used gets a new device.
pub fn usb_allocate_device(bus: &mut UsbBus) -> Result<usize, Failure>
    requires { length bus.old.store.now ≡ store_length }
    ensures gives { Allocates bus.old bus.new result }
    ensures inside { IfOk result (λ place. place < place_count) }
{
    let store = &mut *bus.store;
    let Some(place) = first_unused(store) else {
        return Err(Failure::Error(ErrorCode::BusFull));
    };
    put_new_device(store, place);
    Ok(place)
}
