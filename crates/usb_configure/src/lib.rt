// usbd.rs: the configuration of a device.
#![tactic(auto)]

ghost use Rattle.std.specs.Prelude.{◌<◌};
ghost use Rattle.usb_types.specs.Requests.{to_device};
ghost use Rattle.usb_types.specs.Descriptors.{configuration_descriptor_type};
ghost use Rattle.usb_store.specs.Layout.{place_count};
ghost use Rattle.usb_model.specs.Transfer.{usb_get_descriptor};
ghost use Rattle.usb_model.specs.Usbd as Model;
ghost use Rattle.usb_transfer.specs.Runs.{Ready, Does, Gives};
ghost use Rattle.usb_message.specs.Parts.{Fits};
ghost use Rattle.usb_configure.specs.Parts.{walk_full};

use usb_device::device::UsbDeviceStatus;
use usb_message::{control, usb_get_descriptor};
use usb_model::Buffer;
use usb_store::{
    CONFIGURATION_INDEX, CONFIGURATION_VALUE, INTERFACES, PLACE_LEN, STATUS, TOTAL_LENGTH,
};
use usb_transfer::bus::UsbBus;
use usb_types::descriptors::CONFIGURATION_DESCRIPTOR;
use usb_types::request::{DEVICE, SET_CONFIGURATION, device_request};
use usb_types::types::{ErrorCode, Failure};
use usb_walk::{RECORD_LEN, walk};

#[tactic(auto, unfolding(usb_model::specs::Usbd::usb_set_configure), using(usb_transfer::proofs::Steps::steps))]
pub fn usb_set_configure(bus: &mut UsbBus, place: usize, configuration: u8) -> Result<(), Failure>
    requires { Ready bus.old × (place < place_count) }
    ensures { Does (Model.usb_set_configure place configuration) bus.old bus.new result }
{
    if bus.byte_at(place, STATUS) != UsbDeviceStatus::Addressed as u8 {
        return Err(Failure::Error(ErrorCode::Device));
    }
    let request = device_request(DEVICE, SET_CONFIGURATION, u16::from(configuration), 0, 0);
    control(bus, place, request, Buffer::NOWHERE)?;
    bus.set_byte(place, CONFIGURATION_INDEX, configuration);
    bus.set_byte(place, STATUS, UsbDeviceStatus::Configured as u8);
    Ok(())
}

// The first size bytes of a configuration descriptor; fewer are an error.
fn read_configuration<'a>(
    bus: &mut UsbBus<'_, '_, 'a>,
    place: usize,
    configuration: u8,
    size: u16,
    buffer: Buffer,
) -> Result<&'a [u8], Failure>
    requires { Ready bus.old × Fits place buffer }
    ensures { Gives (usb_get_descriptor place to_device configuration_descriptor_type configuration size size buffer) bus.old bus.new result }
{
    let kind = CONFIGURATION_DESCRIPTOR;
    usb_get_descriptor(bus, place, DEVICE, kind, configuration, size, size, buffer)
}

// The walk over a configuration, into the device's record of interfaces and endpoints.
fn walk_full(bus: &mut UsbBus, place: usize, configuration: u8, full: &[u8]) -> Result<(), Failure>
    requires { Ready bus.old × (place < place_count) }
    ensures { Does (walk_full place configuration full.now) bus.old bus.new result }
{
    bus.set_byte(place, CONFIGURATION_INDEX, configuration);
    let start = place * PLACE_LEN + INTERFACES;
    let end = start + RECORD_LEN;
    let store = &mut *bus.store;
    walk(full, &mut store[start..end])?;
    Ok(())
}

#[tactic(auto, unfolding(usb_model::specs::Usbd::usb_configure), using(usb_transfer::proofs::Steps::steps))]
pub fn usb_configure(bus: &mut UsbBus, place: usize, configuration: u8) -> Result<(), Failure>
    requires { Ready bus.old × (place < place_count) }
    ensures { Does (Model.usb_configure place configuration) bus.old bus.new result }
{
    if bus.byte_at(place, STATUS) != UsbDeviceStatus::Addressed as u8 {
        return Err(Failure::Error(ErrorCode::Device));
    }
    let head = Buffer {
        field: usb_store::CONFIGURATION_DESCRIPTOR,
        room: 9,
    };
    read_configuration(bus, place, configuration, 9, head)?;
    let total = bus.u16_at(place, TOTAL_LENGTH);
    let full = read_configuration(bus, place, configuration, total, Buffer::NOWHERE)?;
    walk_full(bus, place, configuration, full)?;
    let value = bus.byte_at(place, CONFIGURATION_VALUE);
    usb_set_configure(bus, place, value)
}
