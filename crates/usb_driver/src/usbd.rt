// usbd.rs: the attach of a device, and of the root hub. `OnBus` stands in the contracts of this crate and usb_scan, and is no type's
// invariant: functions of the crates below take any bus, and that it still holds after them is proved from what they ran (proofs/Reaches.antt).
ghost use Rattle.std.specs.Prelude.{ℕ, ◌<◌};
ghost use Rattle.usb_device.specs.Device.{free_places};
ghost use Rattle.usb_model.specs.Attach.{attach_below, usb_attach_root_hub};
ghost use Rattle.usb_model.specs.Kept.{Good};
ghost use Rattle.usb_transfer.specs.Runs.{world, Ready, Does};
ghost use Rattle.usb_driver.specs.Bus.{OnBus};

use crate::hub::hub_attach;
use usb_attach::enumerate;
use usb_device::device::UsbDeviceStatus;
use usb_enumerate::usb_allocate_device;
use usb_store::{INTERFACE_CLASS, SPEED, STATUS};
use usb_transfer::bus::UsbBus;
use usb_types::descriptors::is_hub_class;
use usb_types::types::Failure;

#[cycle(attach)]
pub fn usb_attach_device(bus: &mut UsbBus, place: usize) -> Result<(), Failure>
    requires { OnBus place bus.old }
    ensures { (n : ℕ) → free_places bus.old.store.now < n → Does (attach_below n place) bus.old bus.new result }
{
    enumerate(bus, place)?;
    if is_hub_class(bus.byte_at(place, INTERFACE_CLASS)) {
        return hub_attach(bus, place);
    }
    Ok(())
}

// The speed is the root speed, and the hub has its power.
pub fn usb_attach_root_hub(bus: &mut UsbBus, speed: u8) -> Result<(), Failure>
    requires { Ready bus.old × Good (world bus.old) }
    ensures { Does (usb_attach_root_hub speed) bus.old bus.new result }
{
    let place = usb_allocate_device(bus)?;
    bus.set_byte(place, SPEED, speed);
    bus.set_byte(place, STATUS, UsbDeviceStatus::Powered as u8);
    usb_attach_device(bus, place)
}
