// Laws of the model of a disk.
ghost use Rattle.odin_outside.specs.Disk.{WritesByStep, CutsByStep, SyncsLeaveOne};

/// After a write each image is one from before it after a torn write, and each of these may be left.
pub fn writes_by_step()
    ensures { WritesByStep }
{}

/// After a cut each image is one from before it after a step of the cut, and each of these may be left.
pub fn cuts_by_step()
    ensures { CutsByStep }
{}

/// After a sync a crash leaves the image at it, and nothing else.
pub fn syncs_leave_one()
    ensures { SyncsLeaveOne }
{}
