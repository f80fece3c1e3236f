// The store: 32 places of 1,152 bytes, read and written by place and by the field's offset in it. Bytes and no struct, since it is
// a buffer of the C interface's caller: so each access asks `Within` of store, place and field, and functions of the crates above ask for its
// length.
#![tactic(auto)]

ghost use Rattle.std.specs.Prelude.{◌≡◌, ◌+◌, ◌≤◌, length};
ghost use Rattle.usb_store.specs.Access.{Within, write, byte_at, bytes_at, number_at, with_byte, with_bytes, with_number};

pub const PLACE_LEN: usize = 1152;

pub const PLACES: usize = 32;

pub const STORE_LEN: usize = 36864;

// The ports of a hub.
pub const PORTS: usize = 10;

// The fields of a place, document 01, "Store".
pub const USED: usize = 0;

pub const NUMBER: usize = 1;

pub const SPEED: usize = 2;

pub const STATUS: usize = 3;

pub const CONFIGURATION_INDEX: usize = 4;

pub const PORT_NUMBER: usize = 5;

pub const PARENT: usize = 6;

pub const HUB: usize = 7;

pub const ERROR: usize = 8;

pub const LAST_TRANSFER: usize = 12;

pub const DEVICE_DESCRIPTOR: usize = 16;

// bDescriptorType and bDeviceClass.
pub const DEVICE_TYPE: usize = 17;

pub const DEVICE_CLASS: usize = 20;

pub const MAX_PACKET_SIZE0: usize = 23;

pub const CONFIGURATION_DESCRIPTOR: usize = 34;

pub const CONFIGURATION_TYPE: usize = 35;

pub const TOTAL_LENGTH: usize = 36;

pub const CONFIGURATION_VALUE: usize = 39;

pub const HUB_DESCRIPTOR: usize = 43;

pub const PORT_COUNT: usize = 45;

pub const POWER_GOOD_DELAY: usize = 48;

pub const HUB_STATUS: usize = 52;

pub const PORT_STATUS: usize = 56;

pub const CHILDREN: usize = 96;

pub const MAX_CHILDREN: usize = 106;

pub const INTERFACES: usize = 128;

// bDescriptorType, bNumEndpoints and bInterfaceClass of interface 0.
pub const INTERFACE_TYPE: usize = 129;

pub const ENDPOINT_COUNT: usize = 132;

pub const INTERFACE_CLASS: usize = 133;

// bDescriptorType, bEndpointAddress and bmAttributes of interface 0's first endpoint.
pub const ENDPOINT_TYPE: usize = 201;

pub const ENDPOINT_ADDRESS: usize = 202;

pub const ENDPOINT_ATTRIBUTES: usize = 203;

// memory_copy of roothub.rs: copies src into dst from start on. A loop, since by copy_from_slice each short run is a call of
// memcpy: the attaches of `make bench` took 5 to 7 % longer.
pub fn memory_copy(dst: &mut [u8], start: usize, src: &[u8])
    requires { start + length src.now ≤ length dst.old }
    ensures { dst.new ≡ write dst.old start src.now }
{
    for (j, byte) in src.iter().enumerate() {
        dst[start + j] = *byte;
    }
}

#[tactic(auto, unfolding(crate::specs::Access::byte_at))]
pub fn byte_at(store: &[u8], place: usize, field: usize) -> u8
    requires { Within store.now place field 1 }
    ensures { result ≡ byte_at store.now place field }
{
    store[place * PLACE_LEN + field]
}

// A run of n bytes.
#[tactic(auto, unfolding(crate::specs::Access::bytes_at))]
pub fn bytes_at(store: &[u8], place: usize, field: usize, n: usize) -> &[u8]
    requires { Within store.now place field n }
    ensures { result.now ≡ bytes_at store.now place field n }
{
    let start = place * PLACE_LEN + field;
    &store[start..start + n]
}

// A run of N bytes, by value.
#[tactic(auto, using(crate::proofs::Fields::bytes_length))]
fn array_at<const N: usize>(store: &[u8], place: usize, field: usize) -> [u8; N]
    requires { Within store.now place field N }
    ensures { result ≡ bytes_at store.now place field N }
{
    let mut bytes = [0; N];
    bytes.copy_from_slice(bytes_at(store, place, field, N));
    bytes
}

// A number of 2 bytes.
pub fn u16_at(store: &[u8], place: usize, field: usize) -> u16
    requires { Within store.now place field 2 }
    ensures { result ≡ number_at store.now place field 2 }
{
    u16::from_le_bytes(array_at(store, place, field))
}

// A number of 4 bytes.
pub fn u32_at(store: &[u8], place: usize, field: usize) -> u32
    requires { Within store.now place field 4 }
    ensures { result ≡ number_at store.now place field 4 }
{
    u32::from_le_bytes(array_at(store, place, field))
}

#[tactic(auto, unfolding(crate::specs::Access::with_bytes), using(crate::proofs::Writes::write_one))]
pub fn set_byte(store: &mut [u8], place: usize, field: usize, v: u8)
    requires { Within store.old place field 1 }
    ensures { store.new ≡ with_byte store.old place field v }
{
    store[place * PLACE_LEN + field] = v;
}

// Copies a run of bytes into the field.
#[tactic(auto, unfolding(crate::specs::Access::with_bytes))]
pub fn set_bytes(store: &mut [u8], place: usize, field: usize, src: &[u8])
    requires { Within store.old place field (length src.now) }
    ensures { store.new ≡ with_bytes store.old place field src.now }
{
    memory_copy(store, place * PLACE_LEN + field, src);
}

pub fn set_u32(store: &mut [u8], place: usize, field: usize, v: u32)
    requires { Within store.old place field 4 }
    ensures { store.new ≡ with_number store.old place field 4 v }
{
    set_bytes(store, place, field, &v.to_le_bytes());
}
