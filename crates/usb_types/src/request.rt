// request.rs: the setup packet of USB 2.0 table 9-2.
ghost use Rattle.std.specs.Prelude.{◌≡◌, ◌<◌};
ghost use Rattle.usb_types.specs.Requests.{direction_of, direction_bit, device_request};

// bRequest, USB 2.0 table 9-4. Numbers: `device_request` takes each u8, and an enum as its parameter would take fewer.
pub const GET_STATUS: u8 = 0;

pub const CLEAR_FEATURE: u8 = 1;

pub const SET_FEATURE: u8 = 3;

pub const SET_ADDRESS: u8 = 5;

pub const GET_DESCRIPTOR: u8 = 6;

pub const SET_CONFIGURATION: u8 = 9;

// Type and recipient of bmRequestType, USB 2.0 tables 9-2 and 11-15. Numbers, as the codes are.
pub const DEVICE: u8 = 0x00;

pub const HUB: u8 = 0x20;

pub const PORT: u8 = 0x23;

// The setup packet. Numbers: whatever its fields hold, it is a packet.
#[derive(Clone, Copy)]
pub struct UsbDeviceRequest {
    pub request_type: u8,
    pub request: u8,
    pub value: u16,
    pub index: u16,
    pub length: u16,
}

// Direction of the data stage of a standard request, by its code: 1 In, 0 Out, which `device_request` puts into bit 7 of bmRequestType.
// The hub class requests that the driver sends (GetStatus, ClearFeature, SetFeature, GetDescriptor) have the same codes and directions.
#[tactic(auto, unfolding(crate::specs::Requests::direction_of))]
pub fn direction_of(request: u8) -> u8
    ensures { (result ≡ direction_of request) × (result < 2) }
{
    match request {
        0 | 6 | 8 | 10 | 12 => 1,
        1..=5 | 7 | 9 | 11 | 13..=255 => 0,
    }
}

// Bit 7 of bmRequestType: 1 In, 0 Out. A number, as `direction_of` gives: an action shows it as one.
#[tactic(auto, unfolding(crate::specs::Requests::direction_bit))]
pub fn direction_bit(kind: u8) -> u8
    ensures { result ≡ direction_bit kind }
{
    match kind {
        0..=127 => 0,
        128..=255 => 1,
    }
}

#[tactic(auto, unfolding(crate::specs::Requests::device_request))]
pub fn device_request(
    recipient: u8,
    request: u8,
    value: u16,
    index: u16,
    length: u16,
) -> UsbDeviceRequest
    requires { recipient < 128 }
    ensures { result ≡ device_request recipient request value index length }
{
    UsbDeviceRequest {
        request_type: direction_of(request) * 128 + recipient,
        request,
        value,
        index,
        length,
    }
}
