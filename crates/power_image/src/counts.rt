// What a device over an image file counts, and whether it still takes changes.
ghost use Rattle.std.specs.Prelude.{◌≡◌, true, is_err, OnOk, OnErr, IsErr};
ghost use Rattle.zone_image.specs.Counts.{HasCause};
ghost use Rattle.power_image.specs.State.{fault_counted, change_counted};

use zoned_device::DevFault;

#[derive(Clone, Copy)]
pub(crate) struct Counts {
    /// A call failed within a change of descriptors, so that no further change is taken.
    pub(crate) broken: bool,
    pub(crate) faults: u64,
    pub(crate) failed_changes: u64,
}

impl Counts {
    /// A call failed.
    pub(crate) fn fault(&mut self) -> DevFault
        ensures counted { self.new ≡ fault_counted self.old }
        ensures cause { HasCause self.old.faults self.new.faults (Unit {0}) }
    {
        self.faults = self.faults.saturating_add(1);
        DevFault
    }

    /// An append, finish, reset or sync failed.
    pub(crate) fn failed_change(&mut self) -> DevFault
        ensures counted { self.new ≡ change_counted self.old }
        ensures cause { HasCause self.old.faults self.new.faults (Unit {0}) }
    {
        self.faults = self.faults.saturating_add(1);
        self.failed_changes = self.failed_changes.saturating_add(1);
        DevFault
    }

    /// Begins a change. It fails once a call failed within a change of descriptors.
    pub(crate) fn begin_change(&mut self) -> Result<(), DevFault>
        ensures refused { is_err result ≡ self.old.broken }
        ensures begun { OnOk result (self.new ≡ self.old) }
        ensures counted { OnErr result (self.new ≡ change_counted self.old) }
        ensures cause { HasCause self.old.faults self.new.faults (IsErr result) }
    {
        if self.broken {
            return Err(self.failed_change());
        }
        Ok(())
    }

    /// A call failed within a change of descriptors.
    pub(crate) fn break_off(&mut self) -> DevFault
        ensures counted { self.new ≡ record (change_counted self.old) { broken = true } }
        ensures cause { HasCause self.old.faults self.new.faults (Unit {0}) }
    {
        self.broken = true;
        self.failed_change()
    }
}
