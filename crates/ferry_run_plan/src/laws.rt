//! A law of the command that plans a transfer, the contract of a function with nothing to do.
ghost use Rattle.ferry_disk.specs.Device.{Told, told_files};
ghost use Rattle.ferry_run_plan.specs.Planning.{CanBePlanned, IsPlannedUnless, RefusesPlanning};
ghost use Rattle.ferry_run_transfer.specs.Transfer.{Request};
ghost use Rattle.ferry_status.specs.declared.status.Status.{Status as TheStatus};

/// Where both repositories open, each chosen archive is whole in the source and absent in the target or equal, and no item is too long, a plan is refused by
/// nothing but want of memory and a device that failed.
pub fn plan_laws()
    ensures complete { (request : Request) (source target : Told) (status : TheStatus) → CanBePlanned request (told_files source) (told_files target)
        → RefusesPlanning request source target status → IsPlannedUnless status }
{}
