// pipe.rs, and the 16 bytes of an action.
ghost use Rattle.std.specs.Prelude.{◌≡◌};
ghost use Rattle.usb_types.specs.Actions.{request_action, wait_action, frame_interval_action};

use crate::request::{UsbDeviceRequest, direction_bit};

pub const ACTION_LEN: usize = 16;

// What an action shows of UsbPipeAddress besides the direction. Numbers: the speed is a place's byte, whatever stands there, and each
// field becomes a byte of the action.
#[derive(Clone, Copy)]
pub struct UsbPipeAddress {
    pub device: u8,
    pub speed: u8,
    pub max_size: u8,
}

pub fn request_action(pipe: UsbPipeAddress, request: UsbDeviceRequest) -> [u8; ACTION_LEN]
    ensures { result ≡ request_action pipe request }
{
    let [value_low, value_high] = request.value.to_le_bytes();
    let [index_low, index_high] = request.index.to_le_bytes();
    let [length_low, length_high] = request.length.to_le_bytes();
    [
        1,
        pipe.device,
        direction_bit(request.request_type),
        pipe.speed,
        pipe.max_size,
        0,
        0,
        0,
        request.request_type,
        request.request,
        value_low,
        value_high,
        index_low,
        index_high,
        length_low,
        length_high,
    ]
}

pub fn wait_action(microseconds: u32) -> [u8; ACTION_LEN]
    ensures { result ≡ wait_action microseconds }
{
    let [b0, b1, b2, b3] = microseconds.to_le_bytes();
    [2, 0, 0, 0, 0, 0, 0, 0, b0, b1, b2, b3, 0, 0, 0, 0]
}

pub fn frame_interval_action() -> [u8; ACTION_LEN]
    ensures { result ≡ frame_interval_action }
{
    [3, 0, 0, 0, 0, 0, 0, 0, 0, 0, 0, 0, 0, 0, 0, 0]
}
