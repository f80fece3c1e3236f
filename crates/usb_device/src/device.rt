// device.rs: a new device, and the first place that is not used.
ghost use Rattle.std.specs.Prelude.{◌≡◌, ◌+◌, ◌*◌, ◌≤◌, ◌<◌, length, IfSome};
ghost use Rattle.usb_store.specs.Layout.{place_count, place_length, store_length};
ghost use Rattle.usb_store.specs.Access.{with_bytes};
ghost use Rattle.usb_device.specs.Device.{free_place, new_device, marked};
ghost use Rattle.usb_device.specs.Speeds.{speed_number};

use usb_store::{
    CONFIGURATION_INDEX, CONFIGURATION_TYPE, DEVICE_CLASS, DEVICE_TYPE, ENDPOINT_TYPE,
    INTERFACE_TYPE, MAX_PACKET_SIZE0, NUMBER, PLACE_LEN, PLACES, SPEED, USED, byte_at,
};

// As a place's speed byte holds it. A case named in the code is written `as u8`, its number standing below; a speed that is worked out
// goes through `From`, whose contract gives the number.
#[derive(Clone, Copy, PartialEq, Eq, Debug)]
pub enum UsbSpeed {
    High = 0,
    Full = 1,
    Low = 2,
}

impl From<UsbSpeed> for u8 {
    ghost from_gives = { λ s r. r ≡ speed_number s };

    fn from(speed: UsbSpeed) -> u8 {
        speed as u8
    }
}

// USB 2.0 9.1, as a place's status byte holds it. A new device is attached. Only named cases are written and compared, by `as u8`.
#[derive(Clone, Copy, PartialEq, Eq, Debug)]
pub enum UsbDeviceStatus {
    Attached = 0,
    Powered = 1,
    Default = 2,
    Addressed = 3,
    Configured = 4,
}

// The first place that is not used.
pub fn first_unused(store: &[u8]) -> Option<usize>
    requires { length store.now ≡ store_length }
    ensures place { result ≡ free_place store.now }
    ensures within { IfSome result (λ place. place < place_count) }
{
    (0..PLACES).find(|&place| byte_at(store, place, USED) == 0)
}

// Sets n bytes to 1, one every step bytes from first on: the types of n descriptors. By an index, as the definition
// numbers them: for `step_by` an end would have to be worked out.
#[tactic(auto, using(crate::proofs::Turns::mark_turn, crate::proofs::Turns::mark_end))]
fn mark(bytes: &mut [u8], first: usize, step: usize, n: usize)
    requires { (first + n * step < length bytes.old) × (n ≤ 128) × (step < 16) }
    ensures { bytes.new ≡ marked bytes.old first step n }
{
    for i in 0..n {
        bytes[first + i * step] = 1;
    }
}

// UsbDevice::new as UsbAllocateDevice amends it, over the bytes of its place.
fn new_device(bytes: &mut [u8], place: usize)
    requires { (length bytes.old ≡ place_length) × (place < place_count) }
    ensures { bytes.new ≡ new_device place }
{
    bytes.fill(0);
    bytes[USED] = 1;
    bytes[NUMBER] = (place + 1) as u8;
    bytes[SPEED] = UsbSpeed::Full as u8;
    bytes[CONFIGURATION_INDEX] = 255;
    // The types and the class are those of Default: 1 (device) and 9 (hub).
    bytes[DEVICE_TYPE] = 1;
    bytes[DEVICE_CLASS] = 9;
    bytes[MAX_PACKET_SIZE0] = 8;
    bytes[CONFIGURATION_TYPE] = 1;
    mark(bytes, INTERFACE_TYPE, 9, 8);
    mark(bytes, ENDPOINT_TYPE, 7, 128);
}

#[tactic(auto, unfolding(usb_store::specs::Access::with_bytes), using(crate::proofs::NewDevice::put_new))]
pub fn put_new_device(store: &mut [u8], place: usize)
    requires { (length store.old ≡ store_length) × (place < place_count) }
    ensures { store.new ≡ with_bytes store.old place 0 (new_device place) }
{
    let start = place * PLACE_LEN;
    new_device(&mut store[start..start + PLACE_LEN], place);
}
