// The control message over document 01's stand-in for HcdSubmitControlMessage, and the descriptor read.
#![tactic(auto)]

ghost use Rattle.std.specs.Prelude.{◌≤◌, ◌<◌, length, IfOk, Ok};
ghost use Rattle.usb_types.specs.Actions.{request_action};
ghost use Rattle.usb_store.specs.Layout.{place_count};
ghost use Rattle.usb_model.specs.World.{log_request};
ghost use Rattle.usb_model.specs.Transfer as Model;
ghost use Rattle.usb_transfer.specs.Runs.{Ready, Does, Gives};
ghost use Rattle.usb_message.specs.Parts.{Fits, pipe_of, keeping, receiving};

use usb_model::Buffer;
use usb_store::{ERROR, LAST_TRANSFER, MAX_PACKET_SIZE0, NUMBER, SPEED};
use usb_transfer::bus::UsbBus;
use usb_transfer::outcome::{HEADER_LEN, read_outcome};
use usb_types::pipe::{UsbPipeAddress, request_action};
use usb_types::request::{GET_DESCRIPTOR, UsbDeviceRequest, device_request};
use usb_types::types::{ErrorCode, Failure, error_word, result_of, size_from_number};

fn send_request(
    bus: &mut UsbBus,
    place: usize,
    address: u8,
    request: UsbDeviceRequest,
) -> Result<(), Failure>
    requires { Ready bus.old × (place < place_count) }
    ensures { Does (log_request (request_action (pipe_of bus.old.store.now place address) request)) bus.old bus.new result }
{
    let speed = bus.byte_at(place, SPEED);
    let max_size = size_from_number(bus.byte_at(place, MAX_PACKET_SIZE0));
    let pipe = UsbPipeAddress {
        device: address,
        speed,
        max_size,
    };
    bus.log_request(request_action(pipe, request))
}

// Stores the error, the bytes for which there is room, and their count.
fn keep(bus: &mut UsbBus, place: usize, error: u8, bytes: &[u8], buffer: Buffer)
    requires { Ready bus.old × Fits place buffer × (error < 32) × (length bytes.now < 65536) }
    ensures { Does (keeping place error bytes.now buffer) bus.old bus.new (Ok tt) }
{
    let n = buffer.room.min(bytes.len());
    bus.set_u32(place, ERROR, error_word(error));
    bus.set_bytes(place, buffer.field, &bytes[..n]);
    bus.set_u32(place, LAST_TRANSFER, bytes.len() as u32);
}

// HcdSubmitControlMessage, as document 01 has it stood in for: the next outcome is taken and stored, and its bytes are handed back as
// a part of the outcomes.
fn hcd_submit_control_message<'a>(
    bus: &mut UsbBus<'_, '_, 'a>,
    place: usize,
    asked: u16,
    buffer: Buffer,
) -> Result<&'a [u8], Failure>
    requires { Ready bus.old × Fits place buffer }
    ensures { Gives (receiving place asked buffer) bus.old bus.new result }
{
    let outcomes = bus.outcomes;
    let rest = &outcomes[bus.at.taken..];
    let header = read_outcome(rest)?;
    let size = header.size;
    let n = size.min(usize::from(asked));
    let end = HEADER_LEN + n;
    let bytes = &rest[HEADER_LEN..end];
    bus.at.taken += HEADER_LEN + size;
    keep(bus, place, header.error, bytes, buffer);
    result_of(header.submit, header.error)?;
    Ok(bytes)
}

// UsbControlMessage: a request of the device at a place to an address.
pub fn usb_control_message<'a>(
    bus: &mut UsbBus<'_, '_, 'a>,
    place: usize,
    address: u8,
    request: UsbDeviceRequest,
    buffer: Buffer,
) -> Result<&'a [u8], Failure>
    requires { Ready bus.old × Fits place buffer }
    ensures { Gives (Model.usb_control_message place address request buffer) bus.old bus.new result }
{
    send_request(bus, place, address, request)?;
    hcd_submit_control_message(bus, place, request.length, buffer)
}

// A request to the device's own number.
pub fn control<'a>(
    bus: &mut UsbBus<'_, '_, 'a>,
    place: usize,
    request: UsbDeviceRequest,
    buffer: Buffer,
) -> Result<&'a [u8], Failure>
    requires { Ready bus.old × Fits place buffer }
    ensures { Gives (Model.control place request buffer) bus.old bus.new result }
{
    let address = bus.byte_at(place, NUMBER);
    usb_control_message(bus, place, address, request, buffer)
}

// The same, where less than minimum bytes are an error.
pub fn read<'a>(
    bus: &mut UsbBus<'_, '_, 'a>,
    place: usize,
    request: UsbDeviceRequest,
    minimum: u16,
    buffer: Buffer,
) -> Result<&'a [u8], Failure>
    requires { Ready bus.old × Fits place buffer }
    ensures gives { Gives (Model.read place request minimum buffer) bus.old bus.new result }
    ensures enough { IfOk result (λ bytes. minimum ≤ length bytes.now) }
{
    let bytes = control(bus, place, request, buffer)?;
    if bytes.len() < usize::from(minimum) {
        return Err(Failure::Error(ErrorCode::Device));
    }
    Ok(bytes)
}

// UsbGetDescriptor, with its parameters: kind and index are the two bytes of wValue, and no language is named.
pub fn usb_get_descriptor<'a>(
    bus: &mut UsbBus<'_, '_, 'a>,
    place: usize,
    recipient: u8,
    kind: u8,
    index: u8,
    size: u16,
    minimum: u16,
    buffer: Buffer,
) -> Result<&'a [u8], Failure>
    requires { Ready bus.old × Fits place buffer × (recipient < 128) }
    ensures gives { Gives (Model.usb_get_descriptor place recipient kind index size minimum buffer) bus.old bus.new result }
    ensures enough { IfOk result (λ bytes. minimum ≤ length bytes.now) }
{
    let value = u16::from_le_bytes([index, kind]);
    let request = device_request(recipient, GET_DESCRIPTOR, value, 0, size);
    read(bus, place, request, minimum, buffer)
}
