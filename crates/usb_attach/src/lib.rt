// usbd.rs, UsbAttachDevice up to the class of the device.
#![tactic(auto)]

ghost use Rattle.std.specs.Prelude.{◌<◌};
ghost use Rattle.usb_store.specs.Layout.{place_count};
ghost use Rattle.usb_transfer.specs.Runs.{Ready, Does};
ghost use Rattle.usb_attach.specs.Parts.{default_state, addressed, described, enumerated};

use usb_configure::usb_configure;
use usb_device::device::UsbDeviceStatus;
use usb_enumerate::{usb_read_device_descriptor, usb_set_address};
use usb_hub::requests::ignore;
use usb_store::{NUMBER, STATUS};
use usb_transfer::bus::UsbBus;
use usb_types::types::Failure;

// The device answers at address 0 and has told its descriptor.
#[tactic(auto, unfolding(crate::specs::Parts::default_state), using(usb_transfer::proofs::Steps::steps))]
fn default_state(bus: &mut UsbBus, place: usize) -> Result<(), Failure>
    requires { Ready bus.old × (place < place_count) }
    ensures { Does (default_state place) bus.old bus.new result }
{
    bus.set_byte(place, NUMBER, 0);
    usb_read_device_descriptor(bus, place)?;
    bus.set_byte(place, STATUS, UsbDeviceStatus::Default as u8);
    Ok(())
}

// Sets the address; the number is restored where that fails, and not where it stops.
fn set_number(bus: &mut UsbBus, place: usize, address: u8) -> Result<(), Failure>
    requires { Ready bus.old × (place < place_count) }
    ensures { Does (addressed place address) bus.old bus.new result }
{
    let answer = usb_set_address(bus, place, address);
    ignore(answer)?;
    bus.set_byte(place, NUMBER, address);
    answer
}

// The descriptor once more, and the configuration.
#[tactic(auto, unfolding(crate::specs::Parts::described), using(usb_transfer::proofs::Steps::steps))]
fn describe(bus: &mut UsbBus, place: usize) -> Result<(), Failure>
    requires { Ready bus.old × (place < place_count) }
    ensures { Does (described place) bus.old bus.new result }
{
    usb_read_device_descriptor(bus, place)?;
    usb_configure(bus, place, 0)
}

// From a new device to a configured one.
#[tactic(auto, unfolding(crate::specs::Parts::enumerated), using(usb_transfer::proofs::Steps::steps))]
pub fn enumerate(bus: &mut UsbBus, place: usize) -> Result<(), Failure>
    requires { Ready bus.old × (place < place_count) }
    ensures { Does (enumerated place) bus.old bus.new result }
{
    let address = bus.byte_at(place, NUMBER);
    default_state(bus, place)?;
    set_number(bus, place, address)?;
    describe(bus, place)
}
