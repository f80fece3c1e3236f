// The log: an action takes 16 bytes, and nothing of it is written where they are not left.
ghost use Rattle.usb_model.specs.World.{log_action, log_request, micro_delay, dwc_update_host_frame_interval};
ghost use Rattle.usb_transfer.specs.Runs.{Room, Logs};

use crate::bus::UsbBus;
use usb_store::memory_copy;
use usb_types::pipe::{ACTION_LEN, frame_interval_action, wait_action};
use usb_types::types::{Failure, Halt};

impl<'s, 'l, 'o> UsbBus<'s, 'l, 'o> {
    fn log_action(&mut self, action: [u8; ACTION_LEN]) -> Result<(), Failure>
        requires { Room self.old }
        ensures { Logs (log_action action) self.old self.new result }
    {
        let logged = self.at.logged;
        if self.log.len() - logged < ACTION_LEN {
            return Err(Failure::Stop(Halt::LogFull));
        }
        let log = &mut *self.log;
        memory_copy(log, logged, &action);
        self.at.logged = logged + ACTION_LEN;
        Ok(())
    }

    // Logs a request, and counts it.
    pub fn log_request(&mut self, action: [u8; ACTION_LEN]) -> Result<(), Failure>
        requires { Room self.old }
        ensures { Logs (log_request action) self.old self.new result }
    {
        self.log_action(action)?;
        self.at.requests += 1;
        Ok(())
    }

    // Logs a wait.
    pub fn micro_delay(&mut self, microseconds: u32) -> Result<(), Failure>
        requires { Room self.old }
        ensures { Logs (micro_delay microseconds) self.old self.new result }
    {
        self.log_action(wait_action(microseconds))
    }

    pub fn dwc_update_host_frame_interval(&mut self) -> Result<(), Failure>
        requires { Room self.old }
        ensures { Logs dwc_update_host_frame_interval self.old self.new result }
    {
        self.log_action(frame_interval_action())
    }
}
