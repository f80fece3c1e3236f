// What a call works on. The functions of the driver take it as the Rust's take its bus.
ghost use Rattle.std.specs.Prelude.{◌≡◌, length, Ok};
ghost use Rattle.usb_store.specs.Access.{Within, byte_at, number_at};
ghost use Rattle.usb_model.specs.World.{put, put_bytes, put_number};
ghost use Rattle.usb_transfer.specs.Runs.{nothing_done, Ready, Does};

use usb_model::Progress;

// The new store and the log, which are written, the outcomes, and how far the call has come. Each has a lifetime of its own: so a caller
// knows what its slices hold once the bus is gone. `Ready` is not its invariant: the functions of the log and `usb_allocate_device` ask for less.
// A device is the number of its place (document 01), so functions of a device take that beside the bus. Log and outcomes are slices of C's
// caller, and `at` counts how far each is used: there is no heap for a Vec, and the caller learns what the whole log holds.
#[derive(Drop)]
pub struct UsbBus<'s, 'l, 'o> {
    pub store: &'s mut [u8],
    pub log: &'l mut [u8],
    pub outcomes: &'o [u8],
    pub at: Progress,
}

impl<'s, 'l, 'o> UsbBus<'s, 'l, 'o> {
    // Where a call starts.
    pub fn new(store: &'s mut [u8], outcomes: &'o [u8], log: &'l mut [u8]) -> UsbBus<'s, 'l, 'o>
        ensures lends_store { result.store.ghost_name ≡ store.entry.ghost_name }
        ensures store { result.store.now ≡ store.old }
        ensures lends_log { result.log.ghost_name ≡ log.entry.ghost_name }
        ensures log { result.log.now ≡ log.old }
        ensures lends_outcomes { result.outcomes ≡ outcomes.entry }
        ensures starts { result.at ≡ nothing_done }
    {
        let at = Progress {
            logged: 0,
            taken: 0,
            requests: 0,
        };
        UsbBus {
            store,
            log,
            outcomes,
            at,
        }
    }

    // The new store, to read.
    pub fn stored(&self) -> &[u8]
        ensures { result.now ≡ self.now.store.now }
    {
        &*self.store
    }

    pub fn byte_at(&self, place: usize, field: usize) -> u8
        requires { Within self.now.store.now place field 1 }
        ensures { result ≡ byte_at self.now.store.now place field }
    {
        usb_store::byte_at(self.stored(), place, field)
    }

    pub fn u16_at(&self, place: usize, field: usize) -> u16
        requires { Within self.now.store.now place field 2 }
        ensures { result ≡ number_at self.now.store.now place field 2 }
    {
        usb_store::u16_at(self.stored(), place, field)
    }

    pub fn set_byte(&mut self, place: usize, field: usize, v: u8)
        requires { Ready self.old × Within self.old.store.now place field 1 }
        ensures { Does (put place field v) self.old self.new (Ok tt) }
    {
        let store = &mut *self.store;
        usb_store::set_byte(store, place, field, v);
    }

    pub fn set_bytes(&mut self, place: usize, field: usize, src: &[u8])
        requires { Ready self.old × Within self.old.store.now place field (length src.now) }
        ensures { Does (put_bytes place field src.now) self.old self.new (Ok tt) }
    {
        let store = &mut *self.store;
        usb_store::set_bytes(store, place, field, src);
    }

    pub fn set_u32(&mut self, place: usize, field: usize, v: u32)
        requires { Ready self.old × Within self.old.store.now place field 4 }
        ensures { Does (put_number place field 4 v) self.old self.new (Ok tt) }
    {
        let store = &mut *self.store;
        usb_store::set_u32(store, place, field, v);
    }
}
